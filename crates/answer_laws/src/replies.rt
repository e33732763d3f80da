//! Replies to commands.
ghost use Rattle.std.specs.Prelude.{ℕ, List};
ghost use Rattle.entry_judge.specs.declared.timed.Timed.{Timed};
ghost use Rattle.desk_trail.specs.Clients.{Client};
ghost use Rattle.desk_trail.specs.Facts.{Fact};
ghost use Rattle.desk_trail.specs.Legal.{AreLegal};
ghost use Rattle.answer_laws.specs.Answers.{HasOkReply, IsReportedOk};

/// A command that was answered ok has a request, on a stream of its own, whose reply said so.
pub fn an_ok_is_that_of_a_reply()
    ensures { (client : Client) (facts : List (Timed Fact)) (op : ℕ) → AreLegal client facts → IsReportedOk facts op
        → HasOkReply client facts op }
{
    desk_trail::laws::pools::each_pool_has_its_trail();
    desk_trail::laws::pools::each_command_is_where_its_pool_has_it();
    desk_trail::laws::pools::no_connection_is_lent_to_two();
}
