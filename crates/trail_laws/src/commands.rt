//! What a command waits for, and since when.
ghost use Rattle.std.specs.Prelude.{◌≡◌, ◌≤◌, ℕ, List, Some, slice_get};
ghost use Rattle.entry_judge.specs.declared.timed.Timed.{Timed};
ghost use Rattle.desk_trail.specs.Clients.{Client};
ghost use Rattle.desk_trail.specs.Facts.{Fact};
ghost use Rattle.desk_trail.specs.Legal.{AreLegal, point_behind};
ghost use Rattle.desk_trail.specs.States.{CommandState};
ghost use Rattle.trail_laws.specs.Waiting.{BeganBy, WaitsAtItsServer};

/// A command that waits in the line of a pool, or for the greeting of a connection that it dialled, is to check a connection out there.
pub fn each_command_waits_at_its_server()
    ensures { (client : Client) (ts : List (Timed Fact)) (op : ℕ) (c : CommandState) → AreLegal client ts
        → slice_get (point_behind client ts).state.commands op ≡ Some c → WaitsAtItsServer c }
{}

/// A selection that goes on began no later than the last entry.
pub fn each_selection_began_in_time()
    ensures { (client : Client) (ts : List (Timed Fact)) (op : ℕ) (c : CommandState) → AreLegal client ts
        → slice_get (point_behind client ts).state.commands op ≡ Some c → BeganBy (point_behind client ts).moment c.selection }
{}
