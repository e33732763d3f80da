//! Which trails are legal, place by place; what must come next, and when.
ghost use Rattle.std.specs.Prelude.{◌≡◌, ℕ, false, Some, List, [], ◌∷◌, ◌++◌, slice_get, take};
ghost use Rattle.entry_judge.specs.declared.timed.Timed.{Timed};
ghost use Rattle.entry_judge.specs.Groups.{entries_of};
ghost use Rattle.entry_judge.specs.Moments.{NeverFalls};
ghost use Rattle.desk_trail.specs.declared.step.Step.{Step};
ghost use Rattle.desk_trail.specs.Clients.{Client};
ghost use Rattle.desk_trail.specs.Facts.{Fact, Lists, facts_of};
ghost use Rattle.desk_trail.specs.Legal.{AreLegal, IsLegal, StandsAt, point_behind};
ghost use Rattle.desk_trail.specs.Orders.{ArePaid, Extends, is_time};
ghost use Rattle.desk_trail.specs.Owed.{IsHead, IsOwed, Owed};

/// What was told is legal exactly where each entry stands at the point to which those ahead of it lead.
pub fn a_trail_is_legal_place_by_place()
    ensures at { (client : Client) (ts : List (Timed Fact)) → AreLegal client ts
        → (k : ℕ) (t : Timed Fact) → slice_get ts k ≡ Some t → StandsAt client (point_behind client (take k ts)) t }
    ensures from { (client : Client) (ts : List (Timed Fact))
        → ((k : ℕ) (t : Timed Fact) → slice_get ts k ≡ Some t → StandsAt client (point_behind client (take k ts)) t)
        → AreLegal client ts }
{}

/// The front of a legal trail is legal.
pub fn the_front_of_a_legal_trail_is_legal()
    ensures { (client : Client) (lists : Lists) (front rest : List Step)
        → IsLegal client lists (front ++ rest) → IsLegal client lists front }
{}

/// A legal trail is legal by longer lists too, and by them tells the same.
pub fn a_legal_trail_is_legal_by_longer_lists()
    ensures legal { (client : Client) (old new : Lists) (steps : List Step)
        → Extends old new → IsLegal client old steps → IsLegal client new steps }
    ensures same { (client : Client) (old new : Lists) (steps : List Step)
        → Extends old new → IsLegal client old steps → facts_of new steps ≡ facts_of old steps }
{}

/// No entry's moment is below that of the entry ahead of it, and the first one's not below the moment at which the client
/// began.
pub fn moments_never_fall()
    ensures { (client : Client) (ts : List (Timed Fact)) → AreLegal client ts → NeverFalls client.began ts }
{}

/// Where an entry must come next, the next entry is that one, at the moment of the entry ahead of it, a cluster time aside;
/// where none must, it is one that may stand there. What must come next at a place is paid, entry by entry and in order, before
/// a place at which none must: so before any other entry.
pub fn what_is_owed_comes_next()
    ensures next { (client : Client) (ts : List (Timed Fact)) (t : Timed Fact) (d : Owed) (ds : List Owed)
        → AreLegal client (ts ++ t ∷ []) → (point_behind client ts).owed ≡ d ∷ ds → is_time t.what ≡ false → IsOwed d t.what }
    ensures at_once { (client : Client) (ts : List (Timed Fact)) (t : Timed Fact) (d : Owed) (ds : List Owed)
        → AreLegal client (ts ++ t ∷ []) → (point_behind client ts).owed ≡ d ∷ ds → t.at ≡ (point_behind client ts).moment }
    ensures head { (client : Client) (ts : List (Timed Fact)) (t : Timed Fact)
        → AreLegal client (ts ++ t ∷ []) → (point_behind client ts).owed ≡ [] → is_time t.what ≡ false → IsHead t.what }
    ensures paid { (client : Client) (xs ys : List (Timed Fact))
        → AreLegal client (xs ++ ys) → (point_behind client (xs ++ ys)).owed ≡ [] → ArePaid (point_behind client xs).owed (entries_of ys) }
{}
