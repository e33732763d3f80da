//! Which commands go on, and which are finished.
ghost use Rattle.std.specs.Prelude.{◌≡◌, ◌++◌, ℕ, List, Some, false, slice_get};
ghost use Rattle.cmd_build.specs.declared.command.Command.{Command};
ghost use Rattle.entry_judge.specs.declared.timed.Timed.{Timed};
ghost use Rattle.desk_trail.specs.Attempts.{AtCommand};
ghost use Rattle.desk_trail.specs.Clients.{Client};
ghost use Rattle.desk_trail.specs.Facts.{Fact};
ghost use Rattle.desk_trail.specs.Legal.{point_behind};
ghost use Rattle.trail_laws.specs.Answers.{IsFinishedAt, IsUnanswered};

/// A command that was given and is answered nowhere goes on.
pub fn a_command_without_an_answer_goes_on()
    ensures { (client : Client) (ts : List (Timed Fact)) (op : ℕ) (command : Command) → slice_get client.commands op ≡ Some command
        → IsUnanswered op ts → AtCommand (point_behind client ts).state op (λ c. c.is_finished ≡ false) }
{}

/// A command that is finished stays so, whatever is appended.
pub fn a_finished_command_stays_so()
    ensures { (client : Client) (ts more : List (Timed Fact)) (op : ℕ) → IsFinishedAt (point_behind client ts).state op
        → IsFinishedAt (point_behind client (ts ++ more)).state op }
{}
