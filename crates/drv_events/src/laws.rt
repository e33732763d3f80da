//! What holds behind every list of additions and events, each law as the contract of a function that does nothing.
ghost use Rattle.std.specs.Prelude.{◌≡◌, ℕ, ◌+◌, List, length};
ghost use Rattle.drv_events.specs.Runs.{Act, Leads, HeardSince, added};

use crate::Listener;

/// Each listener that is still there heard just the events that were told since it was added, in order; and so did each
/// that was there from the first.
pub fn each_heard_what_was_told_since<L: Listener>()
    ensures { (acts : List (Act L)) (xs ys : List L) (m n : ℕ) → Leads L.heard L.leaves acts xs m ys n → HeardSince L.heard acts xs ys }
{}

/// Those that are still there and those that left are together those that were there and those that were added.
pub fn all_are_counted<L: Listener>()
    ensures { (acts : List (Act L)) (xs ys : List L) (m n : ℕ) → Leads L.heard L.leaves acts xs m ys n → n + length ys ≡ m + length xs + added acts }
{}
