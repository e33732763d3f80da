ghost use Rattle.std.specs.Prelude.{◌≡◌, ◌≤◌, true};
ghost use Rattle.sess_book.specs.declared.session.Holding.TheVariants as holding;
ghost use Rattle.desk_trail.specs.Leases.{needs_number};
ghost use Rattle.sess_step.specs.Choices.{AreIds, HoldsSo, IsAtChoice};
ghost use Rattle.sess_step.specs.Moves.{IsDrawn};

use crate::LeaseBook;
use crate::command_at::CommandAt;
use cmd_state::RunningCommand;
use desk_trail::Entry;
use net_link::Net;
use wired_trail::WiredTrail;

/// A command at its choice that needs a transaction number draws the next one of its session, from which it has drawn none
/// (Retryable Writes, Generating Transaction Identifiers). A session that is leased always has a number left.
pub fn draw<N: Net>(
    wired: &mut WiredTrail<N>,
    sessions: &mut LeaseBook,
    at: CommandAt,
    running: &mut RunningCommand,
)
    requires choice { IsAtChoice wired.old.trail.point at running.old }
    requires room { 1 ≤ wired.old.trail.room.steps }
    requires book { wired.old.trail.point.state.sessions ≡ sessions.old }
    requires needs { needs_number running.old ≡ true }
    requires undrawn { HoldsSo sessions.old running.old holding.Leased }
    ensures drew { IsDrawn wired.old.trail wired.new.trail at sessions.old sessions.new running.old running.new }
    ensures ids { AreIds wired.old.trail.lists.sessions sessions.old → AreIds wired.new.trail.lists.sessions sessions.new }
    ensures same { wired.new ≡ record wired.old { trail = wired.new.trail } }
{
    let Some(place) = running.session() else {
        unreachable!()
    };
    let number = sessions.draw(place);
    wired.append(at.moment, Entry::Drew { op: at.op, number });
    running.draw(number);
}
