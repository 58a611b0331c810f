ghost use Rattle.env_cover.specs.Law.{LawOfCover, LawOfScreening};

/// The law of cover: where an embedding of a query in a marked molecule sends an atom u to an atom v,
/// the codes of v cover the need of u. So a molecule without an atom whose codes cover the need of
/// the pivot is not to be searched. The function does nothing, at no cost: its clauses are the law,
/// for the proofs of its callers.
pub fn law_of_cover()
    ensures cover { LawOfCover }
    ensures screen { LawOfScreening }
{}
