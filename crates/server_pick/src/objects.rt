//! Selection by a picker and loads that are objects.
ghost use Rattle.std.specs.Prelude.{◌≡◌, ◌≢◌, ◌<◌, ◌++◌, length};
ghost use Rattle.std.specs.VecDeque.{deque_len, deque_capacity};
ghost use Rattle.server_pick.specs.Asked.{Asks, AsksFirst, kept_of};
ghost use Rattle.server_pick.specs.Candidates.{candidates};
ghost use Rattle.server_pick.specs.Objects.{Stays};
ghost use Rattle.server_pick.specs.Picks.{picks};
ghost use Rattle.server_pick.specs.Runs.{Runs};

use crate::concluding::conclude;
use crate::picking::{Ready, make_ready};
use crate::{Candidate, Criteria, Loads, Picked, Picker};
use bson_doc::Rows;
use host_name::Host;
use std::alloc::Global;
use std::collections::VecDeque;
use topo_rules::Topology;

impl Loads for &dyn Loads {
    ghost load = { λ r. (Loads-dyn r.now).load r.now.1 };

    fn in_flight(&self, host: &Host) -> u32 {
        (**self).in_flight(host)
    }
}

/// Asks the picker of the candidate, and puts it behind the others where it is kept.
fn ask_any(picker: &mut dyn Picker, candidate: Candidate, others: &mut VecDeque<Candidate>)
    requires { deque_len others.old < deque_capacity others.old }
    ensures next { Stays follows picker.old candidate picker.new }
    ensures kept { others.new.items ≡ others.old.items ++ kept_of (allows picker.old candidate) candidate }
{
    if picker.keep(&candidate) {
        others.push_back_reserved(candidate);
    }
}

/// Asks the picker of the candidate at the front.
fn ask_any_first(picker: &mut dyn Picker, left: &mut VecDeque<Candidate>)
    requires { 0 < length left.old.items }
    ensures { AsksFirst allows (Stays follows) picker.old left.old.items left.new.items picker.new }
{
    let Some(candidate) = left.pop_front() else {
        return;
    };
    ask_any(picker, candidate, left);
}

/// Asks the picker of each candidate once, in order, and gives those that it keeps. It takes no memory.
fn ask_any_all(picker: &mut dyn Picker, candidates: Vec<Candidate>) -> Vec<Candidate>
    ensures { Asks allows (Stays follows) picker.old candidates.items result.items picker.new }
{
    let count = candidates.len();
    let mut left = VecDeque::from(candidates);
    for place in 0..count {
        ask_any_first(picker, &mut left);
    }
    left.into_vec()
}

/// Selects a server as [`pick_by`](crate::pick_by) does, by a picker and loads that are objects.
pub fn pick(
    alloc: Global,
    topology: &Topology,
    criteria: &Criteria<'_>,
    picker: &mut dyn Picker,
    loads: &dyn Loads,
    w1: u64,
    w2: u64,
    kept: &mut Rows<Host>,
) -> Picked
    ensures run { result ≢ Picked.Memory → Runs allows (Stays follows) picker.old (candidates topology.now criteria.now (load loads.now)) kept.new picker.new }
    ensures answer { result ≢ Picked.Memory → result ≡ picks topology.now.servers criteria.now.threshold_micros kept.new (load loads.now) w1 w2 }
    ensures unasked { result ≡ Picked.Memory → picker.new ≡ picker.old }
    ensures unkept { result ≡ Picked.Memory → kept.new ≡ kept.old }
{
    let Ok(prepared) = make_ready(alloc, topology, criteria, &loads) else {
        return Picked::Memory;
    };
    let Ready { candidates, room } = prepared;
    let allowed = ask_any_all(picker, candidates);
    let (picked, hosts) = conclude(room, allowed, criteria.threshold_micros, w1, w2);
    *kept = hosts;
    picked
}
