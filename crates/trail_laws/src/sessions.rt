//! How the sessions of commands are held.
ghost use Rattle.std.specs.Prelude.{◌≡◌, ℕ, List, Some, slice_get};
ghost use Rattle.entry_judge.specs.declared.timed.Timed.{Timed};
ghost use Rattle.desk_trail.specs.Clients.{Client};
ghost use Rattle.desk_trail.specs.Facts.{Fact};
ghost use Rattle.desk_trail.specs.Legal.{AreLegal, point_behind};
ghost use Rattle.desk_trail.specs.States.{CommandState};
ghost use Rattle.trail_laws.specs.Holding.{IsHeldFor};

/// The session of a command is out, and no number was drawn from it since its lease where the command has none.
pub fn each_session_of_a_command_is_held()
    ensures { (client : Client) (ts : List (Timed Fact)) (op : ℕ) (c : CommandState) (place : ℕ) → AreLegal client ts
        → slice_get (point_behind client ts).state.commands op ≡ Some c → c.session ≡ Some place
        → IsHeldFor (point_behind client ts).state.sessions place c.number }
{
    desk_trail::laws::sessions::a_session_is_one_commands();
}
