ghost use Rattle.std.specs.Prelude.{◌≡◌, ◌<◌, ◌++◌, length};
ghost use Rattle.std.specs.VecDeque.{deque_len, deque_capacity};
ghost use Rattle.server_pick.specs.Asked.{Asks, AsksFirst, kept_of};

use crate::{Candidate, Picker};
use std::collections::VecDeque;

/// Asks the picker of the candidate, and puts it behind the others where it is kept.
fn ask<P: Picker>(picker: &mut P, candidate: Candidate, others: &mut VecDeque<Candidate>)
    requires { deque_len others.old < deque_capacity others.old }
    ensures next { P.follows picker.old candidate picker.new }
    ensures kept { others.new.items ≡ others.old.items ++ kept_of (P.allows picker.old candidate) candidate }
{
    if picker.keep(&candidate) {
        others.push_back_reserved(candidate);
    }
}

/// Asks the picker of the candidate at the front.
fn ask_first<P: Picker>(picker: &mut P, left: &mut VecDeque<Candidate>)
    requires { 0 < length left.old.items }
    ensures { AsksFirst P.allows P.follows picker.old left.old.items left.new.items picker.new }
{
    let Some(candidate) = left.pop_front() else {
        return;
    };
    ask(picker, candidate, left);
}

/// Asks the picker of each candidate once, in order, and gives those that it keeps. It takes no memory: each candidate leaves
/// the front, and those that are kept go behind the rest.
pub fn ask_all<P: Picker>(picker: &mut P, candidates: Vec<Candidate>) -> Vec<Candidate>
    ensures { Asks P.allows P.follows picker.old candidates.items result.items picker.new }
{
    let count = candidates.len();
    let mut left = VecDeque::from(candidates);
    for place in 0..count {
        ask_first(picker, &mut left);
    }
    left.into_vec()
}
