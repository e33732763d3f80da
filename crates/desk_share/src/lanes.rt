ghost use Rattle.std.specs.Prelude.{◌≡◌};
ghost use Rattle.desk_share.specs.Closed.{IsClosed};
ghost use Rattle.desk_share.specs.Shared.{Begins, opened_by};

use crate::Opening;
use crate::client::Client;
use crate::driven::DrivenDesk;
use crate::lane_clock::LaneClock;
use crate::lane_gate::LaneGate;
use desk_hooks::{Ended, HookedDesk};
use drv_events::Listener;
use net_link::{Dice, Net};
use server_pick::Picker;
use std::alloc::Global;
use std::marker::Brand;
use std::sync::Wait;
use std::thread;
use std::thread::Threads;

/// Runs a desk's commands by one thread for each of so many lanes, as [`run_lanes`], and ends it. Whatever the threads did, what is said
/// of the client that is left is said of the one that was given.
pub fn share<
    R: Threads + Wait + Sync,
    N: Net + Send,
    P: Picker,
    L: Listener,
    D: Dice + Send,
    C: LaneClock + Send + Sync,
    G: LaneGate + Sync,
>(
    rt: &R,
    alloc: Global,
    desk: HookedDesk<N, P, L>,
    dice: D,
    lanes: u32,
    clock: &C,
    gate: &G,
) -> Ended<N, P, L>
    requires begins { Begins C.shows L.heard desk }
    ensures closed { IsClosed N.tells N.history N.faults C.shows D.rolls L.heard (opened_by N.faults desk) result }
{
    share_opened::<R, N, P, L, D, C, G, Brand>(rt, alloc, desk, dice, lanes, clock, gate)
}

/// The same of a client whose beginning has a name.
fn share_opened<
    R: Threads + Wait + Sync,
    N: Net + Send,
    P: Picker,
    L: Listener,
    D: Dice + Send,
    C: LaneClock + Send + Sync,
    G: LaneGate + Sync,
    J: Opening + Send + Sync,
>(
    rt: &R,
    alloc: Global,
    desk: HookedDesk<N, P, L>,
    dice: D,
    lanes: u32,
    clock: &C,
    gate: &G,
) -> Ended<N, P, L>
    requires begins { Begins C.shows L.heard desk }
    requires opened { opened_by N.faults desk ≡ J.opened }
    ensures closed { IsClosed N.tells N.history N.faults C.shows D.rolls L.heard J.opened result }
{
    let driven: DrivenDesk<N, P, L, D, C, J> = DrivenDesk::new(desk, dice);
    let driven = run_lanes(rt, alloc, driven, lanes, clock, gate);
    driven.close(alloc, clock.now())
}

/// Runs a desk's commands by one thread for each of so many lanes, beside this one, which drives checks until all of them ended. A lane
/// for which no thread can be made is run by this one ahead of that. It gives the desk back when all lanes ended.
pub fn run_lanes<
    R: Threads + Wait + Sync,
    N: Net + Send,
    P: Picker,
    L: Listener,
    D: Dice + Send,
    C: LaneClock + Send + Sync,
    J: Opening + Send + Sync,
    G: LaneGate + Sync,
>(
    rt: &R,
    alloc: Global,
    desk: DrivenDesk<N, P, L, D, C, J>,
    lanes: u32,
    clock: &C,
    gate: &G,
) -> DrivenDesk<N, P, L, D, C, J> {
    let client = Client::new(alloc, desk, lanes, gate.is_open());
    run_threads(rt, &client, lanes, clock, gate);
    client.into_desk()
}

/// The threads of a client's lanes, until each of them ended.
#[tactic(auto, using(crate::proofs::SendLemmas::client_sync))]
fn run_threads<
    R: Threads + Wait + Sync,
    N: Net + Send,
    P: Picker,
    L: Listener,
    D: Dice + Send,
    C: LaneClock + Send + Sync,
    J: Opening + Send + Sync,
    G: LaneGate + Sync,
>(rt: &R, client: &Client<N, P, L, D, C, J>, lanes: u32, clock: &C, gate: &G) {
    thread::scope(thread::scope_env(), rt, |scope| {
        for lane in 0..lanes {
            let number = lane + 1;
            let spawned = scope.spawn(move || client.lane(rt, number, clock, gate));
            if spawned.is_err() {
                client.lane(rt, number, clock, gate);
            }
        }
        client.watcher(rt, clock);
    });
}
