//! Laws of histories, each the contract of a function that does nothing.

ghost use Rattle.std.specs.Prelude.{◌≡◌, ◌≢◌, ℕ, List};
ghost use Rattle.net_link.specs.declared.event.NetEvent.{NetEvent};
ghost use Rattle.net_link.specs.Events.{Adds, OnlyAt, StayAt};
ghost use Rattle.net_link.specs.Prefix.{IsPrefixOf};
ghost use Rattle.net_link.specs.Seen.{Joins, gained, seen};

/// Whatever list of calls concerned one stream leaves the view of any other as it was.
pub fn other_streams_stay()
    ensures { (stream other : ℕ) (old : List NetEvent) (between : List (List NetEvent)) (new : List NetEvent)
        → StayAt stream old between new → other ≢ stream → seen other new ≡ seen other old }
{}

/// Such calls together are as one: they concerned that stream alone.
pub fn calls_on_one_stream()
    ensures { (stream : ℕ) (old : List NetEvent) (between : List (List NetEvent)) (new : List NetEvent)
        → StayAt stream old between new → OnlyAt stream old new }
{}

/// What a view gained behind a call is what the call's own events say; members' events say nothing of a stream.
pub fn gains_are_calls()
    ensures { (stream : ℕ) (events old new : List NetEvent) → Adds events old new → gained stream old new ≡ seen stream events }
{}

/// What was seen, with what was gained since, is what is seen.
pub fn gains_join()
    ensures { (stream : ℕ) (old new : List NetEvent) → IsPrefixOf old new → Joins (seen stream old) (gained stream old new) (seen stream new) }
{}
