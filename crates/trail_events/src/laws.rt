//! What holds of what a trail tells, each law as the contract of a function that does nothing.
ghost use Rattle.std.specs.Prelude.{◌≡◌, ℕ, Bool, List, Some, Contains, slice_get};
ghost use Rattle.desk_trail.specs.Clients.{Client};
ghost use Rattle.desk_trail.specs.Facts.{Fact, Lists, fact_of};
ghost use Rattle.desk_trail.specs.Legal.{AreLegal, point_behind};
ghost use Rattle.desk_trail.specs.States.{ServerState};
ghost use Rattle.desk_trail.specs.declared.entry.Entry.{Entry};
ghost use Rattle.drv_events.specs.declared.event.Event.{Event};
ghost use Rattle.entry_judge.specs.declared.timed.Timed.{Timed};
ghost use Rattle.pool_book.specs.Pool as pool;
ghost use Rattle.trail_events.specs.Alone.{event_alone};
ghost use Rattle.trail_events.specs.Told.{is_ready, tells};

/// The event that an entry alone shows is among those that it tells, whatever stands ahead of it and at the place that it names.
pub fn what_an_entry_shows_alone_is_told()
    ensures { (lists : Lists) (e : Entry) (f : Fact) (was_ready : Bool) (event : Event) → fact_of lists e ≡ Some f → event_alone e ≡ Some event
        → Contains (tells was_ready f) event }
{}

/// Of a legal trail, a host's pool is ready where the entries say so, and only there.
pub fn a_pool_is_ready_as_the_trail_says()
    ensures { (client : Client) (ts : List (Timed Fact)) (host : ℕ) (s : ServerState) → AreLegal client ts
        → slice_get (point_behind client ts).state.servers host ≡ Some s → is_ready host ts ≡ pool.is_ready s.pool.state.state }
{
    desk_trail::laws::pools::each_pool_has_its_trail();
}
