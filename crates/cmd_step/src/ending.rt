ghost use Rattle.std.specs.Prelude.{◌≡◌, ◌≤◌, true, Some, slice_get};
ghost use Rattle.write_retry.specs.Machine.{allows};
ghost use Rattle.desk_trail.specs.declared.entry.Entry.TheVariants as entry_of;
ghost use Rattle.desk_trail.specs.Attempts.{IsAnswer, IsEnd, end_event};
ghost use Rattle.desk_trail.specs.Facts as fact;
ghost use Rattle.desk_trail.specs.Streams.{stream_at};
ghost use Rattle.desk_trail.specs.Written.{an_entry};
ghost use Rattle.wired_trail.specs.Faults.{IsUntold};
ghost use Rattle.wired_trail.specs.Hearing.{TellsHeard};
ghost use Rattle.legal_trail.specs.Recorded.{Adds};
ghost use Rattle.write_retry.specs.declared.events.OpEvent.TheVariants as event;
ghost use Rattle.cmd_step.specs.Ends.{IsBehindRequest, with_it, without_connection};
ghost use Rattle.cmd_step.specs.Free.{IsFree};

use cmd_state::RunningCommand;
use desk_trail::Entry;
use net_link::Net;
use wired_trail::WiredTrail;
use write_retry::{AttemptEnd, Outcome, Unsent};

/// A command in a step whose request is on a stream.
#[derive(Clone, Copy, Debug, PartialEq, Eq)]
pub struct AskedAt {
    /// The command's number.
    pub op: u32,
    /// The stream of the connection that is lent to it.
    pub stream: u64,
    /// The moment of the step, in microseconds.
    pub moment: u64,
}

/// The attempt of a command ends behind its request: by its reply, or without one. What it owes is an event for the topology, where
/// the end tells one, and then the check-in of its connection. Where the net tells, that was heard on the stream. Where a failed call
/// ended it, the net counted one more than the entries tell.
pub fn end_attempt<N: Net>(
    wired: &mut WiredTrail<N>,
    at: AskedAt,
    running: &mut RunningCommand,
    end: AttemptEnd,
)
    requires free { IsFree wired.old.trail.point at.moment }
    requires room { 1 ≤ wired.old.trail.room.steps }
    requires there { slice_get wired.old.trail.point.state.commands at.op ≡ Some running.old }
    requires behind { IsBehindRequest end }
    requires ends { IsEnd wired.old.trail.client at.moment end running.old }
    requires awaited { allows running.old.op.next (end_event end) ≡ true }
    requires on { stream_at wired.old.trail.point.state at.op ≡ Some at.stream }
    requires heard { N.tells → TellsHeard (N.history wired.old.net) wired.old.trail at.moment (fact.Ended at.op end) }
    requires counted { end ≡ AttemptEnd.Fault → IsUntold (N.faults wired.old.net) wired.old.trail.steps }
    ensures adds { Adds an_entry wired.old.trail.lists at.moment (entry_of.Ended at.op end) (fact.Ended at.op end) wired.old.trail wired.new.trail }
    ensures same { wired.new ≡ record wired.old { trail = wired.new.trail } }
    ensures moved { wired.new.trail.point.state ≡ with_it wired.old.trail.point.state at.op running.new }
{
    let AskedAt { op, stream, moment } = at;
    wired.tell(moment, Entry::Ended { op, end }, Some(stream));
    running.end(end);
}

/// A command gets no connection: it is with no pool any more, and its attempt ends.
pub fn end_unsent(running: &mut RunningCommand, why: Unsent)
    requires awaited { allows running.old.op.next (event.Unsent why) ≡ true }
    ensures ended { running.new ≡ without_connection why running.old }
{
    running.leave_pool();
    running.end(AttemptEnd::Unsent(why));
}

/// A command is answered by what is to be done next, and holds no connection. What it owes is that its session comes back, where it
/// holds one.
pub fn finish<N: Net>(
    wired: &mut WiredTrail<N>,
    moment: u64,
    op: u32,
    running: &mut RunningCommand,
    outcome: Outcome,
)
    requires free { IsFree wired.old.trail.point moment }
    requires room { 1 ≤ wired.old.trail.room.steps }
    requires there { slice_get wired.old.trail.point.state.commands op ≡ Some running.old }
    requires answers { IsAnswer outcome running.old }
    ensures adds { Adds an_entry wired.old.trail.lists moment (entry_of.Finished op outcome) (fact.Finished op outcome) wired.old.trail wired.new.trail }
    ensures same { wired.new ≡ record wired.old { trail = wired.new.trail } }
    ensures moved { wired.new.trail.point.state ≡ with_it wired.old.trail.point.state op running.new }
{
    wired.append(moment, Entry::Finished { op, outcome });
    running.finish();
}
