ghost use Rattle.std.specs.Prelude.{◌≡◌, ◌≤◌, ℤ, Some, IfOk, OnErr, OnOk};
ghost use Rattle.sess_book.specs.Ids.{id_of};
ghost use Rattle.desk_trail.specs.declared.entry.Entry.TheVariants as entry_of;
ghost use Rattle.desk_trail.specs.Facts as fact;
ghost use Rattle.desk_trail.specs.Leases.{minutes_needed};
ghost use Rattle.desk_trail.specs.Legal.{StandsAt};
ghost use Rattle.desk_trail.specs.Written.{IsAtLeast, a_session};
ghost use Rattle.legal_trail.specs.Recorded.{Adds};
ghost use Rattle.sess_step.specs.Choices.{AreIds, IsAtChoice};
ghost use Rattle.sess_step.specs.Moves.{IsNamed, Leases, lease_lists, lease_room};

use crate::command_at::CommandAt;
use crate::{LeaseBook, Memory, Taken, Words};
use bson_doc::Lsid;
use cmd_state::RunningCommand;
use desk_trail::Entry;
use net_link::Net;
use wired_trail::WiredTrail;

/// What became of a lease.
#[derive(Clone, Copy, Debug, Drop)]
pub enum LeaseAnswer {
    /// The command holds a session.
    Leased,
    /// A session had the id of the words before, none that was given back is good for the command, and nothing changed: draw other
    /// words.
    Repeated(Lsid),
}

/// A session that is leased: its place, its id, and whether it was made.
#[derive(Clone, Copy, Drop)]
struct ToWrite {
    place: usize,
    lsid: Lsid,
    fresh: bool,
}

/// A command at its choice that needs a session leases one: the one that was given back last where that is good for it, else a new
/// one with the id of the words (Driver Sessions, Algorithm to acquire a ServerSession instance). Where memory is wanting all stays
/// as it was.
pub fn lease<N: Net>(
    wired: &mut WiredTrail<N>,
    sessions: &mut LeaseBook,
    at: CommandAt,
    running: &mut RunningCommand,
    words: Words,
) -> Result<LeaseAnswer, Memory>
    requires choice { IsAtChoice wired.old.trail.point at running.old }
    requires room { IsAtLeast a_session wired.old.trail.room }
    requires book { wired.old.trail.point.state.sessions ≡ sessions.old }
    requires ids { AreIds wired.old.trail.lists.sessions sessions.old }
    requires late { sessions.old.last ≤ at.moment }
    requires needed { (minutes : ℤ) × (minutes_needed running.old ≡ Some minutes) }
    ensures leases { IfOk result (λ answer. Leases wired.old.trail wired.new.trail at sessions.old sessions.new running.old running.new
        (id_of words.first words.second) answer) }
    ensures ids { OnOk result (AreIds wired.new.trail.lists.sessions sessions.new) }
    ensures same { wired.new ≡ record wired.old { trail = wired.new.trail } }
    ensures err { OnErr result ((wired.new ≡ wired.old) × (sessions.new ≡ sessions.old) × (running.new ≡ running.old)) }
{
    let minutes = minutes_for(running);
    match sessions.take(at.moment, minutes, words)? {
        Taken::Session { place, lsid, fresh } => {
            let leased = ToWrite { place, lsid, fresh };
            write_lease(wired, at, leased);
            running.hold(place);
            Ok(LeaseAnswer::Leased)
        }
        Taken::Repeated(lsid) => Ok(LeaseAnswer::Repeated(lsid)),
    }
}

/// For how many minutes a command needs a session.
fn minutes_for(running: &RunningCommand) -> i64
    requires { (minutes : ℤ) × (minutes_needed running.now ≡ Some minutes) }
    ensures { minutes_needed running.now ≡ Some result }
{
    match running.minutes_needed() {
        Some(minutes) => minutes,
        None => unreachable!(),
    }
}

/// Writes the entry of a lease.
fn write_lease<N: Net>(wired: &mut WiredTrail<N>, at: CommandAt, leased: ToWrite)
    requires room { IsAtLeast a_session wired.old.trail.room }
    requires named { IsNamed leased.fresh leased.place leased.lsid wired.old.trail.lists.sessions }
    requires stands { StandsAt wired.old.trail.client wired.old.trail.point
        (record { at = at.moment; what = fact.Leased at.op leased.place leased.lsid leased.fresh }) }
    ensures adds { Adds (lease_room leased.fresh) (lease_lists leased.fresh leased.lsid wired.old.trail.lists) at.moment
        (entry_of.Leased at.op leased.place leased.fresh) (fact.Leased at.op leased.place leased.lsid leased.fresh) wired.old.trail wired.new.trail }
    ensures same { wired.new ≡ record wired.old { trail = wired.new.trail } }
{
    if leased.fresh {
        wired.lease(at.moment, at.op, leased.lsid);
        return;
    }
    wired.append(
        at.moment,
        Entry::Leased {
            op: at.op,
            session: leased.place as u64,
            fresh: false,
        },
    );
}
