// The callers of a board meet.
ghost use Rattle.std.specs.Prelude.{◌≡◌, ℕ, ◌≤◌, map, All};
ghost use Rattle.board.specs.Seated.{IsOf};
ghost use Rattle.script_run.specs.Meeting.{IsMostSeen, SawMost, seen_at};

use crate::gate::Worker;
use board::{Board, Caller, hear, note};

// The caller hears what each of the others has seen.
fn hear_all<G>(board: &Board, caller: &mut Caller, others: &mut [Worker<G>])
    requires fits { IsOf board.now caller.old }
    requires others { All (IsOf board.now) (map (λ w. w.caller) others.old) }
    ensures after { (most : ℕ) × IsMostSeen caller.old.account.log.seen (map (λ w. w.caller) others.old) most
        × (caller.new ≡ seen_at most caller.old) }
    ensures same { map (λ w. w.caller) others.new ≡ map (λ w. w.caller) others.old }
    ensures gates { map (λ w. w.gate) others.new ≡ map (λ w. w.gate) others.old }
{
    for other in others.iter_mut() {
        let told = note(board, &mut other.caller).unwrap();
        hear(board, caller, told);
    }
}

// Each of the others hears what the caller has seen.
fn tell_all<G>(board: &Board, caller: &mut Caller, others: &mut [Worker<G>])
    requires fits { IsOf board.now caller.old }
    requires others { All (IsOf board.now) (map (λ w. w.caller) others.old) }
    requires most { All (λ c. c.account.log.seen ≤ caller.old.account.log.seen) (map (λ w. w.caller) others.old) }
    ensures same { caller.new ≡ caller.old }
    ensures after { map (λ w. w.caller) others.new ≡ map (seen_at caller.old.account.log.seen)
        (map (λ w. w.caller) others.old) }
    ensures gates { map (λ w. w.gate) others.new ≡ map (λ w. w.gate) others.old }
{
    for other in others.iter_mut() {
        let told = note(board, caller).unwrap();
        hear(board, &mut other.caller, told);
    }
}

/// All callers meet: each has then seen the greatest front that one of them had.
pub fn meet<G>(board: &Board, workers: &mut [Worker<G>])
    requires { All (IsOf board.now) (map (λ w. w.caller) workers.old) }
    ensures after { SawMost (map (λ w. w.caller) workers.old) (map (λ w. w.caller) workers.new) }
    ensures gates { map (λ w. w.gate) workers.new ≡ map (λ w. w.gate) workers.old }
{
    if let Some((first, others)) = workers.split_first_mut() {
        hear_all(board, &mut first.caller, others);
        tell_all(board, &mut first.caller, others);
    }
}
