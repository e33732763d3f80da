ghost use Rattle.std.specs.Prelude.{◌≡◌, ◌≢◌, ◌≤◌};
ghost use Rattle.sess_book.specs.declared.session.Holding.{Holding};
ghost use Rattle.sess_book.specs.declared.session.Holding.TheVariants as holding;
ghost use Rattle.sess_step.specs.Choices.{AreIds, HoldsSo, IsToReturn};
ghost use Rattle.sess_step.specs.Moves.{IsReturned};

use crate::LeaseBook;
use crate::command_at::CommandAt;
use cmd_state::RunningCommand;
use desk_trail::Entry;
use net_link::Net;
use wired_trail::WiredTrail;

/// A command that was answered gives its session back, which must come next: dirty where an attempt failed once its request was
/// queued; it is kept as the book says (Driver Sessions, Algorithm to return a ServerSession instance to the server session pool).
pub fn give_back<N: Net>(
    wired: &mut WiredTrail<N>,
    sessions: &mut LeaseBook,
    at: CommandAt,
    running: &mut RunningCommand,
)
    requires owes { IsToReturn wired.old.trail.point at running.old }
    requires room { 1 ≤ wired.old.trail.room.steps }
    requires book { wired.old.trail.point.state.sessions ≡ sessions.old }
    requires late { sessions.old.last ≤ at.moment }
    requires held { (held : Holding) × (held ≢ holding.Nobody) × HoldsSo sessions.old running.old held }
    ensures returned { IsReturned wired.old.trail wired.new.trail at sessions.old sessions.new running.old running.new }
    ensures ids { AreIds wired.old.trail.lists.sessions sessions.old → AreIds wired.new.trail.lists.sessions sessions.new }
    ensures same { wired.new ≡ record wired.old { trail = wired.new.trail } }
{
    let dirty = running.is_dirty();
    let Some(place) = running.give_back() else {
        unreachable!()
    };
    let kept = sessions.give_back(place, at.moment, dirty);
    wired.append(
        at.moment,
        Entry::Returned {
            op: at.op,
            dirty,
            kept,
        },
    );
}
