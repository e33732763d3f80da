//! What holds of every trail of entries, each law as the contract of a function that does nothing.
//!
//! A trail is a list of entries of which each may stand where those ahead of it lead. The laws say what its entries mean
//! in the standard's own words, that a pool's calls make a trail, and what no trail shows.
ghost use Rattle.std.specs.Prelude.{◌≡◌, ℕ, ◌≤◌, true, false, Some, List, [], ◌∷◌, ◌++◌, All, length, slice_get, slice_set, take};
ghost use Rattle.wait_line.specs.Queue.{is_among};
ghost use Rattle.pool_book.specs.declared.rules.PoolRules.{PoolRules};
ghost use Rattle.pool_book.specs.declared.answers.CloseReason.{CloseReason};
ghost use Rattle.pool_book.specs.Pool.{Pool, fresh_pool, is_closed, numbers_of};
ghost use Rattle.pool_book.specs.Entries as entry;
ghost use Rattle.pool_book.specs.Entries.{PoolEntry};
ghost use Rattle.entry_judge.specs.declared.timed.Timed.{Timed};
ghost use Rattle.entry_judge.specs.Judge.{state_after};
ghost use Rattle.entry_judge.specs.Groups.{Stands, entries_of, timed, group};
ghost use Rattle.entry_judge.specs.Parts.{OfPart, at_part, EachLeads};
ghost use Rattle.pool_book.specs.Judge.{pool_judge, Goes, IsTrail, place_behind, pool_behind, entries_and_owed, LeadsTo};
ghost use Rattle.pool_book.specs.Sound.{times_of, times_in};
ghost use Rattle.pool_book.specs.Readings.{generation_by, state_by, waiting_by, pending_by, available_by, lent_by, conns_of, pairs_of, free_of, dials_by, tickets_by};
ghost use Rattle.pool_book.specs.Laws.{serves, misses, lends, IsFree, generation_of, none_begun, counted};

use crate::PoolState;

/// The empty trail leads to a new pool; where a trail leads to a pool, and a call moves the pool by an entry that may
/// stand, that entry and what must follow it lead on to the pool behind the call. So every list of calls makes a trail.
pub fn calls_make_trails()
    ensures begins { (rules : PoolRules) → LeadsTo rules [] (fresh_pool rules) }
    ensures goes_on { (rules : PoolRules) (ts : List (Timed PoolEntry)) (p : Pool) (moment : ℕ) (e : PoolEntry) (q : Pool)
        → LeadsTo rules ts p → Goes p moment e q → LeadsTo rules (ts ++ timed moment (group pool_judge p moment e)) q }
{}

/// Each entry of a trail may stand where those ahead of it lead, place by place.
pub fn each_entry_may_stand()
    ensures { (rules : PoolRules) (ts : List (Timed PoolEntry)) → IsTrail rules ts
        → (k : ℕ) (t : Timed PoolEntry) → slice_get ts k ≡ Some t → Stands pool_judge (place_behind rules (take k ts)) t }
{}

/// The pool behind a trail is what is read off its entries, with those that must follow: the number of clears, the state since
/// the last of them, who entered and since neither got nor dialled a connection, nor got none, nor left; which
/// connections were dialled and since neither settled nor shut, which pairs were lent and since not checked in, and
/// which connections were checked in and since neither lent nor shut.
pub fn the_pool_is_read_off_its_entries()
    ensures generation { (rules : PoolRules) (ts : List (Timed PoolEntry)) → IsTrail rules ts
        → state_after generation_by 0 (entries_and_owed rules ts) ≡ (pool_behind rules ts).generation }
    ensures state { (rules : PoolRules) (ts : List (Timed PoolEntry)) → IsTrail rules ts
        → state_after state_by PoolState.Paused (entries_and_owed rules ts) ≡ (pool_behind rules ts).state }
    ensures waiting { (rules : PoolRules) (ts : List (Timed PoolEntry)) → IsTrail rules ts
        → state_after waiting_by [] (entries_and_owed rules ts) ≡ numbers_of (pool_behind rules ts).waiting }
    ensures pending { (rules : PoolRules) (ts : List (Timed PoolEntry)) → IsTrail rules ts
        → state_after pending_by [] (entries_and_owed rules ts) ≡ conns_of (pool_behind rules ts).pending }
    ensures lent { (rules : PoolRules) (ts : List (Timed PoolEntry)) → IsTrail rules ts
        → state_after lent_by [] (entries_and_owed rules ts) ≡ pairs_of (pool_behind rules ts).lent }
    ensures available { (rules : PoolRules) (ts : List (Timed PoolEntry)) → IsTrail rules ts
        → state_after available_by [] (entries_and_owed rules ts) ≡ free_of (pool_behind rules ts).available }
{}

/// A connection stands at most once among the pending, the lent and the available ones.
pub fn each_connection_stands_once()
    ensures { (rules : PoolRules) (ts : List (Timed PoolEntry)) → IsTrail rules ts
        → (conn : ℕ) → times_of (pool_behind rules ts) conn ≤ 1 }
{}

/// A ticket waits, dials or has a connection at most once, and where it waits it is of no later generation than the pool.
pub fn each_ticket_has_one_place()
    ensures once { (rules : PoolRules) (ts : List (Timed PoolEntry)) → IsTrail rules ts
        → (number : ℕ) → times_in (pool_behind rules ts) number ≤ 1 }
    ensures current { (rules : PoolRules) (ts : List (Timed PoolEntry)) → IsTrail rules ts
        → All (λ t. t.generation ≤ (pool_behind rules ts).generation) (pool_behind rules ts).waiting }
{}

/// Nothing is available in a closed pool.
pub fn a_closed_pool_has_nothing_available()
    ensures { (rules : PoolRules) (ts : List (Timed PoolEntry)) → IsTrail rules ts
        → is_closed (pool_behind rules ts).state ≡ true → (pool_behind rules ts).available ≡ [] }
{}

/// Where a connection is lent, nobody had it until then, and it was dialled in the generation that the pool has there.
pub fn each_lent_connection_was_free()
    ensures { (rules : PoolRules) (ts : List (Timed PoolEntry)) (moment number conn : ℕ)
        → IsTrail rules (ts ++ record { at = moment; what = entry.Lent number conn } ∷ []) → IsFree (entries_of ts) conn }
{}

/// A ticket that waited at a clear gets no connection afterwards, neither to use nor to dial.
pub fn no_ticket_is_served_after_a_clear()
    ensures { (rules : PoolRules) (before : List (Timed PoolEntry)) (moment : ℕ) (between : List (Timed PoolEntry)) (last : Timed PoolEntry) (number : ℕ)
        → IsTrail rules (before ++ record { at = moment; what = entry.Clear } ∷ (between ++ last ∷ []))
        → is_among (state_after waiting_by [] (entries_of before)) number ≡ true → serves number last.what ≡ false }
{}

/// A ticket that waited at a clear is refused afterwards, if it is, as cleared or closed.
pub fn each_ticket_that_waited_at_a_clear_is_refused_as_cleared_or_closed()
    ensures { (rules : PoolRules) (before : List (Timed PoolEntry)) (moment : ℕ) (between : List (Timed PoolEntry)) (last : Timed PoolEntry) (number : ℕ)
        → IsTrail rules (before ++ record { at = moment; what = entry.Clear } ∷ (between ++ last ∷ []))
        → is_among (state_after waiting_by [] (entries_of before)) number ≡ true → misses number last.what ≡ false }
{}

/// A connection that was shut is lent to nobody afterwards.
pub fn no_shut_connection_is_lent()
    ensures { (rules : PoolRules) (before : List (Timed PoolEntry)) (moment : ℕ) (reason : CloseReason) (between : List (Timed PoolEntry)) (last : Timed PoolEntry) (conn : ℕ)
        → IsTrail rules (before ++ record { at = moment; what = entry.ConnShut conn reason } ∷ (between ++ last ∷ []))
        → lends conn last.what ≡ false }
{}

/// A connection is of the generation that the pool had as it was dialled.
pub fn each_connection_is_of_the_generation_of_its_dial()
    ensures pending { (rules : PoolRules) (ts : List (Timed PoolEntry)) → IsTrail rules ts
        → All (λ h. generation_of h.conn (state_after dials_by none_begun (entries_and_owed rules ts)).begun ≡ Some h.generation) (pool_behind rules ts).pending }
    ensures lent { (rules : PoolRules) (ts : List (Timed PoolEntry)) → IsTrail rules ts
        → All (λ h. generation_of h.conn (state_after dials_by none_begun (entries_and_owed rules ts)).begun ≡ Some h.generation) (pool_behind rules ts).lent }
    ensures available { (rules : PoolRules) (ts : List (Timed PoolEntry)) → IsTrail rules ts
        → All (λ a. generation_of a.conn (state_after dials_by none_begun (entries_and_owed rules ts)).begun ≡ Some a.generation) (pool_behind rules ts).available }
{}

/// A ticket that waits is of the generation that the pool had as it entered.
pub fn each_ticket_is_of_the_generation_of_its_entry()
    ensures { (rules : PoolRules) (ts : List (Timed PoolEntry)) → IsTrail rules ts
        → All (λ t. generation_of t.number (state_after tickets_by none_begun (entries_and_owed rules ts)).begun ≡ Some t.generation) (pool_behind rules ts).waiting }
{}

/// Clears, tickets and connections are together no more than the entries. So none of these counts comes to the end of its
/// type before there are as many entries.
pub fn counts_are_no_more_than_entries()
    ensures { (rules : PoolRules) (ts : List (Timed PoolEntry)) → IsTrail rules ts → counted (pool_behind rules ts) ≤ length ts }
{}

/// Of one trail with the pools of several hosts, which go by the same rules: there are none at first; the pool of a host
/// that is named begins fresh; and an entry of one host's pool, with what must follow it, moves that pool alone.
pub fn each_hosts_pool_moves_alone()
    ensures none { (rules : PoolRules) → EachLeads pool_judge (fresh_pool rules) [] [] }
    ensures named { (rules : PoolRules) (ts : List (OfPart PoolEntry)) (pools : List Pool) → EachLeads pool_judge (fresh_pool rules) ts pools
        → EachLeads pool_judge (fresh_pool rules) ts (pools ++ fresh_pool rules ∷ []) }
    ensures goes_on { (rules : PoolRules) (ts : List (OfPart PoolEntry)) (pools : List Pool) (host : ℕ) (p : Pool) (moment : ℕ) (e : PoolEntry) (q : Pool)
        → EachLeads pool_judge (fresh_pool rules) ts pools → slice_get pools host ≡ Some p → Goes p moment e q
        → EachLeads pool_judge (fresh_pool rules) (ts ++ at_part host (timed moment (group pool_judge p moment e))) (slice_set pools host q) }
{}
