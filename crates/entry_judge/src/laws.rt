//! What holds of every judge, each law as the contract of a function that does nothing.
ghost use Rattle.std.specs.Prelude.{◌≡◌, ℕ, Some, List, [], ◌∷◌, ◌++◌, length, take, slice_get, slice_set};
ghost use Rattle.entry_judge.specs.declared.timed.Timed.{Timed};
ghost use Rattle.entry_judge.specs.Groups.{Stands, IsTrail, place_behind, entries_of, nothing_owed, timed, group, Goes, LeadsTo};
ghost use Rattle.entry_judge.specs.Parts.{OfPart, at_part, EachLeads};

/// A type that stands for a judge: the law of a judge is a law of every type that has one.
pub trait HasJudge {
    ghost use Rattle.entry_judge.specs.Groups.{Judge};

    ghost State: { Type 0 };

    ghost Entry: { Type 0 };

    ghost judge: { Judge State Entry };
}

/// A list of entries is a trail exactly where each of them may stand in the place to which those ahead of it lead.
pub fn a_trail_is_legal_place_by_place<J: HasJudge>()
    ensures at { (s : J.State) (ts : List (Timed J.Entry)) → IsTrail J.judge s ts
        → (k : ℕ) (t : Timed J.Entry) → slice_get ts k ≡ Some t → Stands J.judge (place_behind J.judge s (take k ts)) t }
    ensures from { (s : J.State) (ts : List (Timed J.Entry))
        → ((k : ℕ) (t : Timed J.Entry) → slice_get ts k ≡ Some t → Stands J.judge (place_behind J.judge s (take k ts)) t)
        → IsTrail J.judge s ts }
{}

/// The front of a trail is a trail.
pub fn the_front_of_a_trail_is_one<J: HasJudge>()
    ensures { (s : J.State) (xs ys : List (Timed J.Entry)) → IsTrail J.judge s (xs ++ ys) → IsTrail J.judge s xs }
{}

/// What must come next at a place of a trail does come next, in order, as far as the trail goes.
pub fn what_is_owed_comes_next<J: HasJudge>()
    ensures { (s : J.State) (xs ys : List (Timed J.Entry)) → IsTrail J.judge s (xs ++ ys)
        → take (length (place_behind J.judge s xs).owed) (entries_of ys) ≡ take (length ys) (place_behind J.judge s xs).owed }
{}

/// The empty trail leads to where it began. Where a trail leads to a state, and an entry may stand there and leads to
/// another, that entry and what must follow it lead on to the other. So every list of calls makes a trail.
pub fn calls_make_trails<J: HasJudge>()
    ensures begins { (s : J.State) → LeadsTo J.judge s [] s }
    ensures goes_on { (s : J.State) (ts : List (Timed J.Entry)) (p : J.State) (moment : ℕ) (e : J.Entry) (q : J.State)
        → LeadsTo J.judge s ts p → Goes J.judge p moment e q
        → LeadsTo J.judge s (ts ++ timed moment (group J.judge p moment e)) q }
{}

/// Of one trail with several parts: there are none at first; a part that begins is in the state in which each begins;
/// and an entry of one part, with what must follow it, moves the state of that part alone.
pub fn each_part_moves_alone<J: HasJudge>()
    ensures none { (s : J.State) → EachLeads J.judge s [] [] }
    ensures begins { (s : J.State) (ts : List (OfPart J.Entry)) (states : List J.State) → EachLeads J.judge s ts states
        → EachLeads J.judge s ts (states ++ s ∷ []) }
    ensures goes_on { (s : J.State) (ts : List (OfPart J.Entry)) (states : List J.State) (k : ℕ) (p : J.State) (moment : ℕ) (e : J.Entry) (q : J.State)
        → EachLeads J.judge s ts states → slice_get states k ≡ Some p → Goes J.judge p moment e q
        → EachLeads J.judge s (ts ++ at_part k (timed moment (group J.judge p moment e))) (slice_set states k q) }
{}
