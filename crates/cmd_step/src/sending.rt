ghost use Rattle.std.specs.Prelude.{◌≡◌, ◌≤◌, [], ◌∷◌, ◌++◌, None, Some, length, slice_get};
ghost use Rattle.std.specs.Option.{option_map};
ghost use Rattle.write_retry.specs.declared.attempt_end.AttemptEnd.TheVariants as attempt;
ghost use Rattle.write_retry.specs.declared.events.Next.TheVariants as next_of;
ghost use Rattle.desk_trail.specs.declared.entry.Entry.TheVariants as entry_of;
ghost use Rattle.desk_trail.specs.Facts as fact;
ghost use Rattle.desk_trail.specs.Written.{IsAtLeast, a_request, an_entry};
ghost use Rattle.legal_trail.specs.Recorded.{Adds};
ghost use Rattle.wired_trail.specs.Hearing.{told_of};
ghost use Rattle.wired_trail.specs.Lines.{IsIdle, KeepsOthers, line_at, with_unsent};
ghost use Rattle.cmd_step.specs.Ends.{with_it};
ghost use Rattle.cmd_step.specs.Free.{IsFree};
ghost use Rattle.cmd_step.specs.Sending.{IsNextOf, IsOver, with_request};

use cmd_state::RunningCommand;
use desk_trail::Entry;
use net_link::Net;
use request_build::MadeRequest;
use wired_trail::WiredTrail;
use write_retry::{AttemptEnd, Unsent};

/// Queues the request of a command that is to send one, whole, on the stream of the connection that is lent to it (MongoDB wire
/// protocol; Retryable Writes, Executing Retryable Write Commands). It is the next request, as `request_build::command_request`
/// makes it.
pub fn send<N: Net>(
    wired: &mut WiredTrail<N>,
    moment: u64,
    op: u32,
    running: &mut RunningCommand,
    made: MadeRequest,
)
    requires free { IsFree wired.old.trail.point moment }
    requires room { IsAtLeast a_request wired.old.trail.room }
    requires there { slice_get wired.old.trail.point.state.commands op ≡ Some running.old }
    requires sends { running.old.op.next ≡ next_of.Send }
    requires request { IsNextOf wired.old.trail op made.request }
    requires bytes { made.bytes ≡ made.request.bytes }
    requires idle { IsIdle wired.old.lines made.request.stream }
    requires free_stream { N.tells → (told_of wired.old.trail made.request.stream).last ≡ None }
    ensures adds { Adds a_request (record wired.old.trail.lists { requests = wired.old.trail.lists.requests ++ made.request ∷ [] }) moment
        (entry_of.Asked (length wired.old.trail.lists.requests)) (fact.Asked (length wired.old.trail.lists.requests) made.request)
        wired.old.trail wired.new.trail }
    ensures moved { wired.new.trail.point.state ≡ with_request wired.old.trail.point.state op running.new }
    ensures queued { line_at wired.new.lines made.request.stream
        ≡ option_map (with_unsent made.request.bytes) (line_at wired.old.lines made.request.stream) }
    ensures others { KeepsOthers made.request.stream wired.old.lines wired.new.lines }
    ensures net { wired.new.net ≡ wired.old.net }
{
    running.ask(moment);
    wired.ask(moment, made.request, made.bytes);
}

/// A command that is to send its request is too large for its server, by the sizes of `why`, and its attempt ends (MongoDB, Limits).
/// What it owes is the check-in of its connection.
pub fn end_too_large<N: Net>(
    wired: &mut WiredTrail<N>,
    moment: u64,
    op: u32,
    running: &mut RunningCommand,
    why: Unsent,
)
    requires free { IsFree wired.old.trail.point moment }
    requires room { 1 ≤ wired.old.trail.room.steps }
    requires there { slice_get wired.old.trail.point.state.commands op ≡ Some running.old }
    requires sends { running.old.op.next ≡ next_of.Send }
    requires too_large { IsOver wired.old.trail op why }
    ensures adds { Adds an_entry wired.old.trail.lists moment (entry_of.Ended op (attempt.Unsent why)) (fact.Ended op (attempt.Unsent why))
        wired.old.trail wired.new.trail }
    ensures same { wired.new ≡ record wired.old { trail = wired.new.trail } }
    ensures moved { wired.new.trail.point.state ≡ with_it wired.old.trail.point.state op running.new }
{
    let end = AttemptEnd::Unsent(why);
    wired.append(moment, Entry::Ended { op, end });
    running.end(end);
}
