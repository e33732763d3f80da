//! What holds of every list of calls, each law as the contract of a function that does nothing.
//!
//! A history is a list of entries of which each may stand where those ahead of it lead: what any list of calls of a
//! [`SessBook`](crate::SessBook) makes.
ghost use Rattle.std.specs.Prelude.{◌≡◌, ℕ, ℤ, ◌+◌, pos, true, Some, List, slice_get, take};
ghost use Rattle.entry_judge.specs.declared.timed.Timed.{Timed};
ghost use Rattle.entry_judge.specs.Groups.{entries_of, place_behind};
ghost use Rattle.sess_book.specs.Entries.{SessEntry, Drew, sessions_judge};
ghost use Rattle.sess_book.specs.Laws.{IdsDiffer, IsHeldByNobody, IsHistory, draws, leases};
ghost use Rattle.sess_book.specs.Sessions.{no_sessions};

/// No two sessions have one id, so two leases that are out at a time have two ids.
pub fn ids_differ()
    ensures { (ts : List (Timed SessEntry)) → IsHistory ts → IdsDiffer (place_behind sessions_judge no_sessions ts).state.made }
{}

/// A session is leased only where nobody holds it.
pub fn one_holder()
    ensures { (ts : List (Timed SessEntry)) → IsHistory ts
        → (k place : ℕ) (t : Timed SessEntry) → slice_get ts k ≡ Some t → leases place t.what ≡ true
        → IsHeldByNobody (place_behind sessions_judge no_sessions (take k ts)).state.made place }
{}

/// The numbers that are drawn from a session are 1, 2, 3 and so on. So a pair of an id and a number is drawn at most once.
pub fn numbers_rise_by_one()
    ensures { (ts : List (Timed SessEntry)) → IsHistory ts
        → (k moment place : ℕ) (number : ℤ) → slice_get ts k ≡ Some (record { at = moment; what = Drew place number })
        → number ≡ pos (draws place (entries_of (take k ts)) + 1) }
{}
