ghost use Rattle.class_tree.specs.FullChains.{LawOfChains};

/// The law of chains: at each moment of a board, where a chain of more than one page of the tree is full, callers have
/// begun at least seven insertions for each of its pages. The function does nothing, at no cost: its clause is the law.
pub fn law_of_chains()
    ensures { LawOfChains }
{}
