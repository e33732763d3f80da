//! The commands of a trail.
ghost use Rattle.std.specs.Prelude.{◌≡◌, ℕ, false, Some, List, [], ◌∷◌, ◌++◌, slice_get};
ghost use Rattle.entry_judge.specs.declared.timed.Timed.{Timed};
ghost use Rattle.cmd_build.specs.Ops.{writes, retries};
ghost use Rattle.cmd_build.specs.declared.command.Command.{Command};
ghost use Rattle.write_retry.specs.Histories.{IsHistory, attempts, behind, drew, last_look};
ghost use Rattle.write_retry.specs.Verdict.{verdict};
ghost use Rattle.write_retry.specs.declared.outcome.Outcome.{Outcome};
ghost use Rattle.desk_trail.specs.Clients.{Client};
ghost use Rattle.desk_trail.specs.Facts.{Fact};
ghost use Rattle.desk_trail.specs.Facts as fact;
ghost use Rattle.desk_trail.specs.Legal.{AreLegal, point_behind};
ghost use Rattle.desk_trail.specs.Orders.{is_of};
ghost use Rattle.desk_trail.specs.Parts.{events_of};
ghost use Rattle.desk_trail.specs.States.{CommandState};

/// The events of each command are a history of it, which leads to what the client has of the command. So each law of such
/// histories holds of them.
pub fn each_command_has_its_history()
    ensures history { (client : Client) (op : ℕ) (command : Command) (ts : List (Timed Fact))
        → slice_get client.commands op ≡ Some command → AreLegal client ts
        → IsHistory (writes command.act) (retries command.act) (events_of client op ts) }
    ensures leads { (client : Client) (op : ℕ) (command : Command) (ts : List (Timed Fact)) (c : CommandState)
        → slice_get client.commands op ≡ Some command → AreLegal client ts
        → slice_get (point_behind client ts).state.commands op ≡ Some c
        → c.op ≡ behind (writes command.act) (retries command.act) (events_of client op ts) }
{}

/// A command is answered by the verdict on its attempts.
pub fn each_answer_is_the_verdict_on_the_attempts()
    ensures { (client : Client) (op : ℕ) (command : Command) (ts : List (Timed Fact)) (moment : ℕ) (outcome : Outcome)
        → slice_get client.commands op ≡ Some command
        → AreLegal client (ts ++ record { at = moment; what = fact.Finished op outcome } ∷ [])
        → verdict (drew (writes command.act) (retries command.act) (events_of client op ts)) (attempts (events_of client op ts)) (last_look (events_of client op ts))
        ≡ Some outcome }
{
    write_retry::laws::answers_are_verdicts();
}

/// Behind its answer no entry is of a command, the return of its session aside; so it is answered once.
pub fn behind_its_answer_no_entry_is_of_a_command()
    ensures no_more { (client : Client) (xs ys : List (Timed Fact)) (moment op : ℕ) (outcome : Outcome) (t : Timed Fact)
        → AreLegal client (xs ++ record { at = moment; what = fact.Finished op outcome } ∷ (ys ++ t ∷ [])) → is_of op t.what ≡ false }
    ensures once { (client : Client) (xs ys : List (Timed Fact)) (first second op : ℕ) (outcome other : Outcome)
        → AreLegal client (xs ++ record { at = first; what = fact.Finished op outcome } ∷ (ys ++ record { at = second; what = fact.Finished op other } ∷ [])) → ⊥ }
{}
