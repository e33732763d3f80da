//! What holds of every list of calls, each law as the contract of a function that does nothing.
//!
//! A history is a list of entries of which each may stand where those ahead of it lead: what any list of calls of a
//! [`Watch`](crate::Watch) makes.
ghost use Rattle.std.specs.Prelude.{◌≡◌, ◌≤◌, ℕ, Bool, List, ◌∷◌, ◌++◌, None, Some};
ghost use Rattle.entry_judge.specs.declared.timed.Timed.{Timed};
ghost use Rattle.watch_step.specs.Checks.{Checks, next_check};
ghost use Rattle.watch_step.specs.Entries.{Asked, CheckEntry, Ended, after};
ghost use Rattle.watch_step.specs.Laws.{IsHistory, NoneEnds, asks_before, checks_behind, least_due};

/// When a check is due is read off the entries: the least of the moment that the last end gave, or of the beginning where
/// no check ended, and of the soonest moments that the asks since name, up to the next check's beginning.
pub fn due_is_read_off_the_entries()
    ensures first { (beat first : ℕ) (ts : List (Timed CheckEntry)) → IsHistory beat first ts → NoneEnds ts
        → (checks_behind beat first ts).due ≡ least_due None first (asks_before ts) }
    ensures later { (beat first moment : ℕ) (again : Bool) (before since : List (Timed CheckEntry))
        → IsHistory beat first (before ++ record { at = moment; what = Ended again } ∷ since) → NoneEnds since
        → (checks_behind beat first (before ++ record { at = moment; what = Ended again } ∷ since)).due
        ≡ least_due (Some moment) (next_check again beat moment) (asks_before since) }
{}

/// No check becomes due later by being asked for.
pub fn asks_postpone_nothing()
    ensures { (s : Checks) (moment : ℕ) → (after s moment Asked).due ≤ s.due }
{}
