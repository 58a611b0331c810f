ghost use Rattle.page_pool.specs.Counting.{LawOfCounts};
ghost use Rattle.page_pool.specs.Holding.{LawOfHolding};

/// The law of holding: at each moment of a board no page that a caller holds is free, or any caller's own. `take` makes
/// the page that it gives the caller's own, so no page is given from the load by which a pinned caller reached it until
/// that caller's `unpin`. The function does nothing, at no cost: its clause is the law.
pub fn law_of_holding()
    ensures { LawOfHolding }
{}

/// The law of counts: at each moment of a board the pages that are not free are at most 70 for each insertion begun, 33
/// for each loader and the root, whatever became of the pages that were given back. The function does nothing, at no
/// cost: its clause is the law.
pub fn law_of_counts()
    ensures { LawOfCounts }
{}
