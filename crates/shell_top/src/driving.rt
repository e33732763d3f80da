//! The commands are run by one thread, one behind the other.
ghost use Rattle.std.specs.Prelude.{◌≡◌, ◌<◌, ◌≤◌, OnOk, IsSome, false, length};
ghost use Rattle.trail_tally.specs.Tallies.{AreAnswered, answer_of};
ghost use Rattle.shell_top.specs.Going.{GoesOn, IsTold};

use crate::context::Context;
use crate::waiting::drive_checks;
use bson_doc::Memory;
use desk_core::Sight;
use desk_share::{DrivenDesk, Opening, Patience};
use drv_events::Listener;
use net_link::{Clock, Dice, Gate, Net, Phase};
use server_pick::Picker;
use std::alloc::AllocError;
use std::sync::Wait;
use trail_tally::laws::an_answer_stays;
use trail_tally::{Tally, is_answered, note};

/// Runs the commands that are not answered, in their order, each until it is.
pub fn drive<R: Wait, N: Net, P: Picker, L: Listener, D: Dice, C: Clock, G: Gate, J: Opening>(
    context: &Context<'_, R, C, G>,
    desk: &mut DrivenDesk<N, P, L, D, C, J>,
    tallies: &mut [Tally],
) -> Result<(), Memory>
    requires told { IsTold desk.old.desk tallies.old }
    requires few { length tallies.old ≤ 100000 }
    ensures goes { GoesOn desk.old.desk desk.new.desk }
    ensures told { IsTold desk.new.desk tallies.new }
    ensures ok { OnOk result (desk.new.desk.is_stopped ≡ false) }
    ensures answered { OnOk result (AreAnswered desk.new.desk.trail.client.commands desk.new.desk.trail.steps) }
{
    an_answer_stays();
    let count = tallies.len();
    'commands: for op in 0..count {
        run_command(context, desk, tallies, op as u32)?;
    }
    if desk.is_stopped() {
        return Err(AllocError);
    }
    Ok(())
}

/// Steps a command until it is answered, between two passes of the gate, unless it was. While it waits checks are driven.
fn run_command<R: Wait, N: Net, P: Picker, L: Listener, D: Dice, C: Clock, G: Gate, J: Opening>(
    context: &Context<'_, R, C, G>,
    desk: &mut DrivenDesk<N, P, L, D, C, J>,
    tallies: &mut [Tally],
    op: u32,
) -> Result<(), Memory>
    requires told { IsTold desk.old.desk tallies.old }
    requires given { op < length tallies.old }
    ensures goes { GoesOn desk.old.desk desk.new.desk }
    ensures told { IsTold desk.new.desk tallies.new }
    ensures answered { OnOk result (IsSome (answer_of op desk.new.desk.trail.steps)) }
{
    if is_answered(tallies, op) {
        return Ok(());
    }
    let lane = desk.commands()[op as usize].lane;
    context.gate.pass(lane, op, Phase::Before);
    let answered = step_through(context, desk, tallies, lane, op);
    context.gate.pass(lane, op, Phase::After);
    answered
}

/// Steps what comes next in the command's lane until the command is answered.
fn step_through<R: Wait, N: Net, P: Picker, L: Listener, D: Dice, C: Clock, G: Gate, J: Opening>(
    context: &Context<'_, R, C, G>,
    desk: &mut DrivenDesk<N, P, L, D, C, J>,
    tallies: &mut [Tally],
    lane: u32,
    op: u32,
) -> Result<(), Memory>
    requires told { IsTold desk.old.desk tallies.old }
    requires given { op < length tallies.old }
    ensures goes { GoesOn desk.old.desk desk.new.desk }
    ensures told { IsTold desk.new.desk tallies.new }
    ensures answered { OnOk result (IsSome (answer_of op desk.new.desk.trail.steps)) }
{
    let mut patience = Patience::new();
    let rt = context.rt;
    'turns: for _ in rt.forever() {
        if is_answered(tallies, op) {
            return Ok(());
        }
        let sight = step_lane(context, desk, tallies, lane);
        if desk.is_stopped() {
            return Err(AllocError);
        }
        if let Some(Sight::Wait { until }) = sight {
            drive_checks(context, desk, tallies)?;
            context.clock.rest(patience.next_rest(until));
        }
    }
    unreachable!()
}

/// One step of what comes next in a lane.
fn step_lane<R: Wait, N: Net, P: Picker, L: Listener, D: Dice, C: Clock, G: Gate, J: Opening>(
    context: &Context<'_, R, C, G>,
    desk: &mut DrivenDesk<N, P, L, D, C, J>,
    tallies: &mut [Tally],
    lane: u32,
) -> Option<Sight>
    requires told { IsTold desk.old.desk tallies.old }
    ensures goes { GoesOn desk.old.desk desk.new.desk }
    ensures told { IsTold desk.new.desk tallies.new }
{
    let moment = context.clock.now();
    let behind = desk.steps().len();
    let sight = desk.turn(context.alloc, lane, moment);
    note(tallies, &desk.steps()[behind..]);
    sight
}
