ghost use Rattle.std.specs.Prelude.{◌≡◌, ◌≤◌, ◌<◌, ◌-◌, ◌^◌, [], OnErr, OnOk};
ghost use Rattle.desk_trail.specs.declared.entry.Entry.TheVariants as entry_of;
ghost use Rattle.desk_trail.specs.Attempts.{IsToEnter};
ghost use Rattle.desk_trail.specs.Facts as fact;
ghost use Rattle.desk_trail.specs.Written.{an_entry};
ghost use Rattle.legal_trail.specs.Recorded.{Adds};
ghost use Rattle.cmd_step.specs.Free.{IsFree};
ghost use Rattle.cmd_step.specs.Places.{AreAt, with_both};

use crate::{At, Memory};
use cmd_state::RunningCommand;
use desk_trail::Entry;
use net_link::Net;
use server_state::Server;
use wired_trail::WiredTrail;

/// A command asks the pool of the server that it chose for a connection: its ticket joins the line (CMAP, Checking Out a
/// Connection). Where memory is wanting all stays as it was.
pub fn enter<N: Net>(
    wired: &mut WiredTrail<N>,
    at: At,
    server: &mut Server,
    running: &mut RunningCommand,
) -> Result<(), Memory>
    requires free { IsFree wired.old.trail.point at.moment }
    requires room { 1 ≤ wired.old.trail.room.steps }
    requires places { AreAt wired.old.trail.point.state at server.old running.old }
    requires idle { server.old.pool.owed ≡ [] }
    requires chose { IsToEnter at.host running.old }
    requires count { server.old.pool.state.entered < 2 ^ 64 - 1 }
    ensures adds { OnOk result (Adds an_entry wired.old.trail.lists at.moment (entry_of.Entered at.op at.host server.old.pool.state.entered)
        (fact.Entered at.op at.host server.old.pool.state.entered) wired.old.trail wired.new.trail) }
    ensures same { wired.new ≡ record wired.old { trail = wired.new.trail } }
    ensures moved { OnOk result (wired.new.trail.point.state ≡ with_both wired.old.trail.point.state at server.new running.new) }
    ensures idle { server.new.pool.owed ≡ [] }
    ensures err { OnErr result ((wired.new ≡ wired.old) × (server.new ≡ server.old) × (running.new ≡ running.old)) }
{
    let ticket = server.enter(at.moment)?;
    wired.append(
        at.moment,
        Entry::Entered {
            op: at.op,
            host: at.host,
            ticket: ticket.number,
        },
    );
    running.enter(at.host, ticket);
    Ok(())
}
