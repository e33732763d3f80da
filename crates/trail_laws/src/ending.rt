//! The end of a client.
ghost use Rattle.std.specs.Prelude.{◌≡◌, List, [], false};
ghost use Rattle.entry_judge.specs.declared.timed.Timed.{Timed};
ghost use Rattle.desk_trail.specs.Clients.{Client};
ghost use Rattle.desk_trail.specs.Facts.{Fact};
ghost use Rattle.desk_trail.specs.Legal.{point_behind};

/// A client that is not ending asked for no farewell of its sessions.
pub fn a_client_that_goes_on_asked_no_farewell()
    ensures { (client : Client) (ts : List (Timed Fact)) → (point_behind client ts).state.is_ending ≡ false
        → (point_behind client ts).state.farewells ≡ [] }
{}
