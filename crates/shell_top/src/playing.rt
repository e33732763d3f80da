//! A client's whole way: its commands are run, and it is ended.
ghost use Rattle.std.specs.Prelude.{◌≡◌, ◌≤◌, [], IsOk, false, length};
ghost use Rattle.desk_share.specs.Closed.{IsClosed};
ghost use Rattle.trail_tally.specs.Tallies.{AreAnswered, AreTallies, tallies_of};

use crate::context::Context;
use crate::driving::drive;
use bson_doc::Memory;
use desk_hooks::Ended;
use desk_share::{DrivenDesk, Opening};
use drv_events::Listener;
use net_link::{Clock, Dice, Gate, Net};
use server_pick::Picker;
use std::sync::Wait;
use trail_tally::laws::{an_answer_stays, tallies_are_those_of_the_trail};
use trail_tally::{Tally, note};

/// A client that ran its commands, or all that memory was there for, and ended.
#[derive(Drop)]
pub struct Played<N, P, L> {
    /// Whether all commands were run.
    pub driven: Result<(), Memory>,
    /// What is left of it.
    pub ended: Ended<N, P, L>,
}

/// Runs the commands of a desk that are not answered yet, and ends it. Nothing of its trail was counted yet.
pub fn play<R: Wait, N: Net, P: Picker, L: Listener, D: Dice, C: Clock, G: Gate, J: Opening>(
    context: &Context<'_, R, C, G>,
    mut desk: DrivenDesk<N, P, L, D, C, J>,
    tallies: &mut [Tally],
) -> Played<N, P, L>
    requires fresh { AreTallies [] tallies.old }
    requires count { length tallies.old ≡ length desk.desk.trail.client.commands }
    requires few { length tallies.old ≤ 100000 }
    ensures closed { IsClosed N.tells N.history N.faults C.shows D.rolls L.heard J.opened result.ended }
    ensures runs { IsOk result.driven → result.ended.finished.stopped ≡ false }
    ensures answered { IsOk result.driven → AreAnswered J.opened.client.commands result.ended.finished.trail.steps }
    ensures told { tallies.new ≡ tallies_of J.opened.client.commands result.ended.finished.trail.steps }
{
    an_answer_stays();
    tallies_are_those_of_the_trail();
    note(tallies, desk.steps());
    let driven = drive(context, &mut desk, tallies);
    let behind = desk.steps().len();
    let ended = desk.close(context.alloc, context.clock.now());
    let count = ended.finished.trail.steps.len();
    note(
        tallies,
        &ended.finished.trail.steps.as_slice()[behind..count],
    );
    Played { driven, ended }
}
