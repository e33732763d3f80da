//! What follows from what a trail says of commands.
ghost use Rattle.std.specs.Prelude.{◌≡◌, ◌<◌, ◌^◌, ◌++◌, ℕ, List, None, Some, IsSome, false, length, slice_get};
ghost use Rattle.cmd_build.specs.declared.command.Command.{Command};
ghost use Rattle.desk_trail.specs.declared.step.Step.{Step};
ghost use Rattle.desk_trail.specs.Attempts.{AtCommand};
ghost use Rattle.desk_trail.specs.Clients.{Client};
ghost use Rattle.desk_trail.specs.Facts.{Lists, facts_of};
ghost use Rattle.desk_trail.specs.Legal.{point_behind};
ghost use Rattle.trail_tally.specs.Tallies.{AreTallies, answer_of, tallies_of};
ghost use Rattle.trail_tally.specs.declared.tally.Tally.{Tally};

/// A command that was given and that no entry answers goes on at the end of the trail.
pub fn a_command_that_no_entry_answers_goes_on()
    ensures { (client : Client) (lists : Lists) (steps : List Step) (op : ℕ) (command : Command) → slice_get client.commands op ≡ Some command
        → answer_of op steps ≡ None → AtCommand (point_behind client (facts_of lists steps)).state op (λ c. c.is_finished ≡ false) }
{
    trail_laws::answers::a_command_without_an_answer_goes_on();
}

/// A command's answer stays, whatever is appended.
pub fn an_answer_stays()
    ensures { (op : ℕ) (steps appended : List Step) → IsSome (answer_of op steps) → answer_of op (steps ++ appended) ≡ answer_of op steps }
{}

/// Tallies of all of a client's commands are those of its trail, exactly, where that has fewer than 2^64 entries.
pub fn tallies_are_those_of_the_trail()
    ensures { (commands : List Command) (steps : List Step) (ts : List Tally) → AreTallies steps ts → length ts ≡ length commands → length steps < 2 ^ 64
        → ts ≡ tallies_of commands steps }
{}
