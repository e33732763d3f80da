//! A run over members in memory.
ghost use Rattle.std.specs.Prelude.{◌≡◌, []};

use crate::settings::Setting;
use bson_doc::Memory;
use desk_trail::Trail;
use drv_events::Hooks;
use member_hall::Hall;
use net_link::{OpenGate, TickClock, VecSink};
use server_pick::KeepAll;
use shell_top::{Ended, run};
use soak_plan::SeedDice;
use std::alloc::Global;
use std::sync::Wait;
use std::thread::Threads;

/// By how many microseconds the clock goes on at each look.
const STEP: u64 = 1;

/// The seed of the dice.
const SEED: u64 = 1;

/// What a run left.
#[derive(Drop)]
pub struct Played {
    /// The members.
    pub hall: Hall,
    /// What the client did.
    pub trail: Trail,
    /// What was written.
    pub out: VecSink,
}

impl Played {
    /// The report.
    pub fn report(&self) -> &str {
        match std::str::from_utf8(self.out.written()) {
            Ok(report) => report,
            // (cannot be: a report is text)
            Err(_) => "",
        }
    }
}

/// Runs the commands over members to which nothing happened yet.
pub fn play<R: Threads + Wait + Sync>(
    rt: &R,
    alloc: Global,
    setting: Setting,
) -> Result<Played, Memory>
    requires { setting.hall.events ≡ [] }
{
    let words = setting.words;
    let hall = setting.hall;
    let mut script = setting.script;
    let mut out = setting.out;
    let clock = TickClock::new(0, STEP);
    let dice = SeedDice::new(SEED);
    let picker = Box::new(alloc, KeepAll)?;
    let ended = run(
        rt,
        alloc,
        &words,
        &mut script,
        &mut out,
        hall,
        &clock,
        dice,
        Hooks::new(alloc),
        picker,
        &OpenGate,
    );
    let Ended { net, trail, .. } = ended;
    Ok(Played {
        hall: net,
        trail,
        out,
    })
}
