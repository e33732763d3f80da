//! What one thread does while a command waits.
ghost use Rattle.std.specs.Prelude.{◌≡◌, OnOk, false};
ghost use Rattle.shell_top.specs.Going.{GoesOn, IsTold};

use crate::context::Context;
use bson_doc::Memory;
use desk_share::{DrivenDesk, Opening};
use drv_events::Listener;
use net_link::{Clock, Dice, Gate, Net};
use server_pick::Picker;
use std::alloc::AllocError;
use std::sync::Wait;
use trail_tally::{Tally, note};

/// Drives the check of each server that is due or runs.
pub fn drive_checks<
    R: Wait,
    N: Net,
    P: Picker,
    L: Listener,
    D: Dice,
    C: Clock,
    G: Gate,
    J: Opening,
>(
    context: &Context<'_, R, C, G>,
    desk: &mut DrivenDesk<N, P, L, D, C, J>,
    tallies: &mut [Tally],
) -> Result<(), Memory>
    requires runs { desk.old.desk.is_stopped ≡ false }
    requires told { IsTold desk.old.desk tallies.old }
    ensures goes { GoesOn desk.old.desk desk.new.desk }
    ensures told { IsTold desk.new.desk tallies.new }
    ensures ok { OnOk result (desk.new.desk.is_stopped ≡ false) }
{
    let moment = context.clock.now();
    let count = desk.count_due(moment);
    'checking: for host in 0..count {
        drive_check(context, desk, tallies, host, moment)?;
    }
    Ok(())
}

/// Drives the check of a server, where it is due or runs.
fn drive_check<R: Wait, N: Net, P: Picker, L: Listener, D: Dice, C: Clock, G: Gate, J: Opening>(
    context: &Context<'_, R, C, G>,
    desk: &mut DrivenDesk<N, P, L, D, C, J>,
    tallies: &mut [Tally],
    host: u32,
    moment: u64,
) -> Result<(), Memory>
    requires runs { desk.old.desk.is_stopped ≡ false }
    requires told { IsTold desk.old.desk tallies.old }
    requires seen { C.shows moment }
    ensures goes { GoesOn desk.old.desk desk.new.desk }
    ensures told { IsTold desk.new.desk tallies.new }
    ensures ok { OnOk result (desk.new.desk.is_stopped ≡ false) }
{
    let behind = desk.steps().len();
    let sight = desk.check(context.alloc, host, moment);
    note(tallies, &desk.steps()[behind..]);
    match sight {
        Some(_) => Ok(()),
        None => Err(AllocError),
    }
}
