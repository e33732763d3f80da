ghost use Rattle.std.specs.Prelude.{◌≡◌, ◌++◌, List, false, replicate, true};
ghost use Rattle.desk_trail.specs.declared.step.Step.{Step as TrailStep};
ghost use Rattle.desk_core.specs.Nexts.{AreAnsweredAhead};
ghost use Rattle.desk_share.specs.Closed.{IsClosed};
ghost use Rattle.desk_share.specs.Holds.{AreWords, CountsDue, IsCheckStep, IsNextNow, IsTurn};
ghost use Rattle.desk_share.specs.Shared.{AreSoFar, Begins, IsShared, opened_by};

use crate::Opening;
use cmd_build::Command;
use desk_core::{Sight, Words};
use desk_hooks::{Ended, HookedDesk};
use desk_trail::Step;
use drv_events::Listener;
use drv_events::laws::{all_are_counted, each_heard_what_was_told_since};
use net_link::{Clock, Dice, Net};
use server_pick::Picker;
use std::alloc::Global;
use std::marker::{Model, PhantomData};
use trail_laws::answers::{a_command_without_an_answer_goes_on, a_finished_command_stays_so};

/// The greatest number of a lane (own); lanes are counted from 1.
pub const LANES: usize = 64;

/// A client's desk with its listeners and its dice, and how far each lane is. Contracts see the desk. What its type says of that stays
/// true whoever drives it: one thread that owns it, or several behind a lock.
pub struct DrivenDesk<N: Net, P: Picker, L: Listener, D: Dice, C: Clock, J: Opening> {
    desk: HookedDesk<N, P, L>,
    dice: D,
    // by lane: the commands of it ahead of that place are answered
    places: [u32; LANES + 1],
    clock: PhantomData<C>,
    opening: PhantomData<J>,
}

impl<N: Net, P: Picker, L: Listener, D: Dice, C: Clock, J: Opening> Model
    for DrivenDesk<N, P, L, D, C, J> {
    ghost use Rattle.desk_hooks.specs.State.{HookedDesk as State};
    ghost use Rattle.desk_share.specs.Shared.{AreSoFar, IsShared};
    ghost use Rattle.std.specs.Coded.{codes};
    ghost use Rattle.bson_doc.specs.contracts.value.Value as values;
    ghost use Rattle.topo_rules.specs.contracts.topology.Topology as topologies;

    ghost Value = { State N P L };

    ghost coded = { Prim.hlevel (codes, N.code, P.code, L.code, values.the_row.coded, topologies.the_row.coded) };

    ghost view = { λ d. d.desk };

    ghost invariant = { λ d. IsShared N.faults C.shows D.rolls L.heard J.opened d.desk × AreSoFar d.desk.desk d.places };
}

impl<N: Net, P: Picker, L: Listener, D: Dice, C: Clock, J: Opening> DrivenDesk<N, P, L, D, C, J> {
    /// A desk that a client begins with, and its dice.
    pub fn new(desk: HookedDesk<N, P, L>, dice: D) -> DrivenDesk<N, P, L, D, C, J>
        requires begins { Begins C.shows L.heard desk }
        requires opened { opened_by N.faults desk ≡ J.opened }
        ensures desk { result ≡ desk }
    {
        DrivenDesk {
            desk,
            dice,
            places: first_places(),
            clock: PhantomData,
            opening: PhantomData,
        }
    }

    /// Whether it stopped for want of memory.
    pub fn is_stopped(&self) -> bool
        ensures { result ≡ self.now.desk.is_stopped }
    {
        self.desk.is_stopped()
    }

    /// The commands that the client was given.
    pub fn commands(&self) -> &[Command]
        ensures value { result.now ≡ self.now.desk.trail.client.commands }
    {
        self.desk.commands()
    }

    /// All that the client did so far. It is the client that was put there.
    pub fn steps(&self) -> &[Step]
        ensures value { result.now ≡ self.now.desk.trail.steps }
        ensures client { self.now.desk.trail.client ≡ J.opened.client }
    {
        self.desk.steps()
    }

    /// The command of the lane that comes next: the first of it that is not answered; None where all are, or the desk stopped.
    pub fn next_of(&mut self, lane: u32) -> Option<u32>
        ensures desk { self.new ≡ self.old }
        ensures next { IsNextNow lane self.old.desk result }
    {
        if self.desk.is_stopped() {
            return None;
        }
        match self.desk.next_from(lane, self.place_of(lane)) {
            Some(op) => {
                self.pass(lane, op);
                Some(op)
            }
            None => None,
        }
    }

    /// A place that the lane is at: the commands of it ahead are answered.
    fn place_of(&self, lane: u32) -> u32
        ensures ahead { AreAnsweredAhead self.now.desk.trail.client self.now.desk.trail.point.state lane result }
    {
        let at = lane as usize;
        if at <= LANES { self.places[at] } else { 0 }
    }

    /// Notes that the lane is at a place.
    fn pass(&mut self, lane: u32, place: u32)
        requires ahead { AreAnsweredAhead self.old.desk.trail.client self.old.desk.trail.point.state lane place }
        ensures desk { self.new ≡ self.old }
    {
        let at = lane as usize;
        if at <= LANES {
            self.places[at] = place;
        }
    }

    /// One call of the lane's next command, by four words of the dice; None where each command of the lane is answered, or the desk
    /// stopped.
    pub fn turn(&mut self, alloc: Global, lane: u32, moment: u64) -> Option<Sight>
        requires shown { C.shows moment }
        ensures turned { IsTurn N.faults D.rolls lane moment result self.old.desk self.new.desk }
    {
        let op = self.next_of(lane)?;
        a_command_without_an_answer_goes_on();
        a_finished_command_stays_so();
        each_heard_what_was_told_since::<L>();
        all_are_counted::<L>();
        self.desk.steps();
        let words = words_of(&mut self.dice);
        let sight = self.desk.step_op(alloc, op, moment, words).ok();
        self.desk.steps();
        sight
    }

    /// How many hosts have numbers, where some check is due or runs at that moment; else 0, also where the desk stopped.
    pub fn count_due(&self, moment: u64) -> u32
        ensures due { self.now.desk.is_stopped ≡ false → CountsDue moment self.now.desk result }
        ensures over { self.now.desk.is_stopped ≡ true → result ≡ 0 }
    {
        if self.desk.is_stopped() {
            return 0;
        }
        match self.desk.next_due() {
            Some(due) if due.at <= moment => {
                u32::try_from(self.desk.names().len()).unwrap_or(u32::MAX)
            }
            _ => 0,
        }
    }

    /// One call of the check of one server; None where the desk stopped.
    pub fn check(&mut self, alloc: Global, host: u32, moment: u64) -> Option<Sight>
        requires shown { C.shows moment }
        ensures checked { IsCheckStep N.faults host moment result self.old.desk self.new.desk }
    {
        if self.desk.is_stopped() {
            return None;
        }
        a_finished_command_stays_so();
        each_heard_what_was_told_since::<L>();
        all_are_counted::<L>();
        self.desk.steps();
        let sight = self.desk.step_check(alloc, host, moment).ok();
        self.desk.steps();
        sight
    }

    /// Ends the client, at a moment that the clock shows.
    pub fn close(self, alloc: Global, moment: u64) -> Ended<N, P, L>
        requires shown { C.shows moment }
        ensures closed { IsClosed N.tells N.history N.faults C.shows D.rolls L.heard J.opened result }
        ensures stopped { result.finished.stopped ≡ self.desk.is_stopped }
        ensures steps { (added : List TrailStep) × (result.finished.trail.steps ≡ self.desk.trail.steps ++ added) }
    {
        each_heard_what_was_told_since::<L>();
        all_are_counted::<L>();
        let DrivenDesk {
            desk,
            dice,
            places: _,
            clock: _,
            opening: _,
        } = self;
        drop(dice);
        desk.finish(alloc, moment)
    }
}

/// No lane is anywhere.
fn first_places() -> [u32; LANES + 1]
    ensures { result ≡ replicate 65 0 }
{
    [0; LANES + 1]
}

/// Four words of the dice.
fn words_of<D: Dice>(dice: &mut D) -> Words
    ensures rolled { AreWords D.rolls result }
{
    Words {
        a: dice.word(),
        b: dice.word(),
        c: dice.word(),
        d: dice.word(),
    }
}
