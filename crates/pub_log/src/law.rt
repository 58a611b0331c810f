// Two laws on histories.
ghost use Rattle.pub_log.specs.Later.{LawOfHistory, LawOfLastHistory};
ghost use Rattle.pub_log.specs.Moments.{LawOfMoments};

/// The law of history: of any two moments of a board, the history of the later one begins with that of the earlier one.
/// A moment is later where each loader's account has the entries that it had, and perhaps more. The same holds of the
/// history of a closed board, and the accounts that it was given. The function does nothing, at no cost: its clauses
/// are the law.
pub fn law_of_history()
    ensures history { LawOfHistory }
    ensures last { LawOfLastHistory }
{}

/// Each kind of step on a board leads to a later moment, whoever makes it, and so do any number of steps. The function
/// does nothing, at no cost: its clause is the law.
pub fn law_of_moments()
    ensures { LawOfMoments }
{}
