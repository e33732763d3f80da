ghost use Rattle.std.specs.Prelude.{◌≡◌, ◌≤◌, ◌^◌, List, [], length, min, true, false, IfErr, IfOk, OnErr, OnOk};
ghost use Rattle.entry_judge.specs.declared.timed.Timed.{Timed};
ghost use Rattle.net_link.specs.Causes.{Rose};
ghost use Rattle.desk_trail.specs.Attempts.{AtCommand};
ghost use Rattle.desk_trail.specs.Facts.{ArePlaced, Fact, facts_of};
ghost use Rattle.desk_trail.specs.Legal.{IsComplete, IsLegal, point_behind};
ghost use Rattle.desk_trail.specs.Written.{lists_of};
ghost use Rattle.legal_trail.specs.Recorded.{Recorded, told_in};
ghost use Rattle.wired_trail.specs.Faults.{IsCounted};
ghost use Rattle.wired_trail.specs.Wired.{IsWired};
ghost use Rattle.write_effects.specs.Each.{EachTakesEffectOnce};
ghost use Rattle.desk_core.specs.Appends.{Appends, AreQuiet, NamesNone, Tells, TellsAside, TellsNone, TellsOf};
ghost use Rattle.desk_core.specs.Due.{IsNext};
ghost use Rattle.desk_core.specs.Ending.{ArePoolsShut};
ghost use Rattle.desk_core.specs.Nexts.{AreAnsweredAhead, IsNextIn};
ghost use Rattle.desk_core.specs.Sights.{MeansCheck};
ghost use Rattle.desk_core.specs.Picks.{AsksPicker};
ghost use Rattle.desk_core.specs.State.{AreShallow, now_of};
ghost use Rattle.desk_core.specs.Steps.{MeansStep};
ghost use Rattle.trail_events.specs.Told.{told};
ghost use Rattle.desk_hooks.specs.Hearing.{AreTold, HearMore};
ghost use Rattle.desk_hooks.specs.Telling.{IsFront};

use crate::Memory;
use crate::telling::tell_behind;
use bson_doc::Rows;
use cmd_build::Command;
use conn_uri::Settings;
use desk_core::{Desk, Due, Finished, Sight, Words};
use desk_trail::laws::places::a_legal_trail_is_legal_by_longer_lists;
use desk_trail::{Request, Step, Trail};
use drv_events::{HooksOf, Listener};
use host_name::Host;
use net_link::Net;
use server_pick::Picker;
use std::alloc::Global;
use std::marker::Model;
use topo_rules::TopoEvent;

/// A client's core, and listeners that hear what its trail tells (SDAM Monitoring; CMAP, Events; Command Monitoring).
///
/// Each call makes the desk's call. Before it returns, also with an error, it tells the listeners what the appended entries tell,
/// one event after another, for which it takes no memory. Of an entry that clears a pool it looks back in the trail for the last
/// that made that pool ready, cleared or closed it; so such an entry costs a look at each entry since, at most at all of them.
#[derive(Drop)]
pub struct HookedDesk<N: Net, P: Picker, L: Listener> {
    desk: Desk<N, P>,
    hooks: HooksOf<L>,
}

impl<N: Net, P: Picker, L: Listener> Model for HookedDesk<N, P, L> {
    ghost use Rattle.desk_hooks.specs.State.{HookedDesk as State};
    ghost use Rattle.std.specs.Coded.{codes};
    ghost use Rattle.bson_doc.specs.contracts.value.Value as values;
    ghost use Rattle.topo_rules.specs.contracts.topology.Topology as topologies;

    ghost Value = { State N P L };

    ghost coded = { Prim.hlevel (codes, N.code, P.code, L.code, values.the_row.coded, topologies.the_row.coded) };

    ghost view = { λ d. record {
      desk = d.desk;
      hooks = d.hooks;
    } };
}

/// What is left of a desk with listeners that ended.
#[derive(Drop)]
pub struct Ended<N, P, L> {
    /// What is left of the desk.
    pub finished: Finished<N, P>,
    /// The listeners that are still there, and how many left.
    pub hooks: HooksOf<L>,
}

/// What a desk with listeners was to go by, where there was no memory to make one.
#[derive(Drop)]
pub struct Refused<N, P, L> {
    /// The net as it was.
    pub net: N,
    /// The picker as it was.
    pub picker: P,
    /// The listeners as they were.
    pub hooks: HooksOf<L>,
}

impl<N: Net, P: Picker, L: Listener> HookedDesk<N, P, L> {
    /// The desk of [`Desk::new`], with these listeners, which heard what its first entries tell. Where memory is wanting net, picker
    /// and listeners come back as they were.
    pub fn new(
        alloc: Global,
        net: N,
        settings: Settings,
        commands: Rows<Command>,
        picker: P,
        hooks: HooksOf<L>,
        moment: u64,
    ) -> Result<HookedDesk<N, P, L>, Refused<N, P, L>>
        requires fresh { N.tells → N.history net ≡ [] }
        requires few { length commands ≤ 16777216 }
        requires levels { AreShallow commands }
        ensures client { IfOk result (λ d.
            d.desk.trail.client ≡ record { settings = settings; commands = commands; began = min moment (2 ^ 62) }) }
        ensures now { IfOk result (λ d. d.desk.last ≡ min moment (2 ^ 62)) }
        ensures quiet { IfOk result (λ d. AreQuiet (min moment (2 ^ 62)) d.desk.trail.steps) }
        ensures names { IfOk result (λ d. TellsNone (told_in d.desk.trail)) }
        ensures runs { IfOk result (λ d. d.desk.is_stopped ≡ false) }
        ensures net { IfOk result (λ d. d.desk.net ≡ net) }
        ensures picker { IfOk result (λ d. d.desk.picker ≡ picker) }
        ensures heard { IfOk result (λ d. AreTold L.heard L.leaves (told (facts_of d.desk.trail.lists d.desk.trail.steps)) hooks d.hooks) }
        ensures returned { IfErr result (λ r. (r.net ≡ net) × (r.picker ≡ picker) × (r.hooks ≡ hooks)) }
    {
        match Desk::new(alloc, net, settings, commands, picker, moment) {
            Ok(desk) => Ok(opened(desk, hooks)),
            Err(returned) => Err(Refused {
                net: returned.net,
                picker: returned.picker,
                hooks,
            }),
        }
    }

    /// The listeners that are still there, and how many left.
    pub fn hooks(&self) -> &HooksOf<L>
        ensures value { result.now ≡ self.now.hooks }
    {
        &self.hooks
    }

    /// Whether it stopped for want of memory.
    pub fn is_stopped(&self) -> bool
        ensures { result ≡ self.now.desk.is_stopped }
    {
        self.desk.is_stopped()
    }

    /// All that it did so far, as [`Desk::steps`].
    pub fn steps(&self) -> &[Step]
        ensures value { result.now ≡ self.now.desk.trail.steps }
        ensures wired { N.tells → IsWired self.now.desk.trail.client (N.history self.now.desk.net)
            (facts_of self.now.desk.trail.lists self.now.desk.trail.steps) }
        ensures counted { IsCounted (N.faults self.now.desk.net) self.now.desk.trail.steps }
        ensures legal { IsLegal self.now.desk.trail.client self.now.desk.trail.lists self.now.desk.trail.steps }
        ensures complete { self.now.desk.is_stopped ≡ false
            → IsComplete self.now.desk.trail.client self.now.desk.trail.lists self.now.desk.trail.steps }
        ensures point { self.now.desk.trail.point
            ≡ point_behind self.now.desk.trail.client (facts_of self.now.desk.trail.lists self.now.desk.trail.steps) }
    {
        self.desk.steps()
    }

    /// The commands that it was given.
    pub fn commands(&self) -> &[Command]
        ensures value { result.now ≡ self.now.desk.trail.client.commands }
    {
        self.desk.commands()
    }

    /// The names of the hosts, by their numbers.
    pub fn names(&self) -> &[Host]
        ensures value { result.now ≡ self.now.desk.trail.lists.names }
    {
        self.desk.names()
    }

    /// The events that were offered to the topology, in order.
    pub fn events(&self) -> &[TopoEvent]
        ensures value { result.now ≡ self.now.desk.trail.lists.events }
    {
        self.desk.events()
    }

    /// The requests that were queued, in order.
    pub fn requests(&self) -> &[Request]
        ensures value { result.now ≡ self.now.desk.trail.lists.requests }
    {
        self.desk.requests()
    }

    /// Moves one command, as [`Desk::step_op`], and tells what that appended.
    ///
    /// # Errors
    ///
    /// [`Memory`] where memory is wanting, after which the desk is stopped; what was appended until then is told.
    pub fn step_op(
        &mut self,
        alloc: Global,
        op: u32,
        moment: u64,
        words: Words,
    ) -> Result<Sight, Memory>
        requires runs { self.old.desk.is_stopped ≡ false }
        requires there { AtCommand self.old.desk.trail.point.state op (λ c. c.is_finished ≡ false) }
        ensures now { self.new.desk.last ≡ now_of self.old.desk.last moment }
        ensures sight { IfOk result (MeansStep (now_of self.old.desk.last moment) op words self.old.desk.trail self.new.desk.trail) }
        ensures appends { Appends (Rose (N.faults self.old.desk.net) (N.faults self.new.desk.net)) (now_of self.old.desk.last moment)
            self.old.desk.trail self.new.desk.trail }
        ensures names { TellsOf op words self.old.desk.trail self.new.desk.trail }
        ensures asks { OnOk result (AsksPicker P.allows P.follows (now_of self.old.desk.last moment) op self.old.desk.trail self.new.desk.trail
            self.old.desk.picker self.new.desk.picker) }
        ensures ok { OnOk result (self.new.desk.is_stopped ≡ false) }
        ensures err { OnErr result (self.new.desk.is_stopped ≡ true) }
        ensures faults { N.faults self.old.desk.net ≤ N.faults self.new.desk.net }
        ensures heard { HearMore L.heard L.leaves (facts_of self.old.desk.trail.lists self.old.desk.trail.steps)
            (facts_of self.new.desk.trail.lists self.new.desk.trail.steps) self.old.hooks self.new.hooks }
    {
        a_legal_trail_is_legal_by_longer_lists();
        let behind = self.desk.steps().len();
        let sight = self.desk.step_op(alloc, op, moment, words);
        tell_desk(&mut self.hooks, &self.desk, behind);
        sight
    }

    /// The command of the lane that comes next: the first of it that is not answered; None exactly where all are.
    pub fn next_of(&self, lane: u32) -> Option<u32>
        requires runs { self.now.desk.is_stopped ≡ false }
        ensures next { IsNextIn self.now.desk.trail.client self.now.desk.trail.point.state lane result }
    {
        self.desk.next_of(lane)
    }

    /// The same, where each command of the lane ahead of a place is answered, as [`Desk::next_from`].
    pub fn next_from(&self, lane: u32, from: u32) -> Option<u32>
        requires runs { self.now.desk.is_stopped ≡ false }
        requires ahead { AreAnsweredAhead self.now.desk.trail.client self.now.desk.trail.point.state lane from }
        ensures next { IsNextIn self.now.desk.trail.client self.now.desk.trail.point.state lane result }
    {
        self.desk.next_from(lane, from)
    }

    /// Begins, drives or ends the check of one server, as [`Desk::step_check`], and tells what that appended.
    ///
    /// # Errors
    ///
    /// [`Memory`] where memory is wanting, after which the desk is stopped; what was appended until then is told.
    pub fn step_check(&mut self, alloc: Global, host: u32, moment: u64) -> Result<Sight, Memory>
        requires runs { self.old.desk.is_stopped ≡ false }
        ensures now { self.new.desk.last ≡ now_of self.old.desk.last moment }
        ensures sight { IfOk result (MeansCheck self.new.desk.trail.client self.new.desk.trail.point.state
            (now_of self.old.desk.last moment) host) }
        ensures appends { Appends (Rose (N.faults self.old.desk.net) (N.faults self.new.desk.net)) (now_of self.old.desk.last moment)
            self.old.desk.trail self.new.desk.trail }
        ensures names { TellsAside self.old.desk.trail self.new.desk.trail }
        ensures picker { self.new.desk.picker ≡ self.old.desk.picker }
        ensures ok { OnOk result (self.new.desk.is_stopped ≡ false) }
        ensures err { OnErr result (self.new.desk.is_stopped ≡ true) }
        ensures faults { N.faults self.old.desk.net ≤ N.faults self.new.desk.net }
        ensures heard { HearMore L.heard L.leaves (facts_of self.old.desk.trail.lists self.old.desk.trail.steps)
            (facts_of self.new.desk.trail.lists self.new.desk.trail.steps) self.old.hooks self.new.hooks }
    {
        a_legal_trail_is_legal_by_longer_lists();
        let behind = self.desk.steps().len();
        let sight = self.desk.step_check(alloc, host, moment);
        tell_desk(&mut self.hooks, &self.desk, behind);
        sight
    }

    /// The server whose check is due or running and earliest, of those the least number, as [`Desk::next_due`]; None exactly where
    /// the topology has no server.
    pub fn next_due(&self) -> Option<Due>
        requires runs { self.now.desk.is_stopped ≡ false }
        ensures next { IsNext self.now.desk.trail.point.state self.now.desk.last result }
    {
        self.desk.next_due()
    }

    /// Ends it, as [`Desk::finish`], and tells what that appended.
    pub fn finish(self, alloc: Global, moment: u64) -> Ended<N, P, L>
        ensures wired { N.tells → IsWired self.desk.trail.client (N.history result.finished.net)
            (facts_of (lists_of result.finished.trail) result.finished.trail.steps) }
        ensures counted { IsCounted (N.faults result.finished.net) result.finished.trail.steps }
        ensures once { N.tells → EachTakesEffectOnce self.desk.trail.client
            (facts_of (lists_of result.finished.trail) result.finished.trail.steps) (N.history result.finished.net) }
        ensures legal { IsLegal self.desk.trail.client (lists_of result.finished.trail) result.finished.trail.steps }
        ensures complete { self.desk.is_stopped ≡ false
            → IsComplete self.desk.trail.client (lists_of result.finished.trail) result.finished.trail.steps }
        ensures shut { self.desk.is_stopped ≡ false
            → ArePoolsShut (point_behind self.desk.trail.client
            (facts_of (lists_of result.finished.trail) result.finished.trail.steps)).state }
        ensures appends { (new : Recorded) × Appends ⊥ (now_of self.desk.last moment) self.desk.trail new
            × (lists_of result.finished.trail ≡ new.lists) × (result.finished.trail.steps ≡ new.steps) }
        ensures names { Tells NamesNone (facts_of self.desk.trail.lists self.desk.trail.steps)
            (facts_of (lists_of result.finished.trail) result.finished.trail.steps) }
        ensures settings { result.finished.settings ≡ self.desk.trail.client.settings }
        ensures commands { result.finished.commands ≡ self.desk.trail.client.commands }
        ensures picker { result.finished.picker ≡ self.desk.picker }
        ensures stopped { result.finished.stopped ≡ self.desk.is_stopped }
        ensures faults { N.faults self.desk.net ≤ N.faults result.finished.net }
        ensures heard { HearMore L.heard L.leaves (facts_of self.desk.trail.lists self.desk.trail.steps)
            (facts_of (lists_of result.finished.trail) result.finished.trail.steps) self.hooks result.hooks }
    {
        a_legal_trail_is_legal_by_longer_lists();
        let HookedDesk { desk, mut hooks } = self;
        let behind = desk.steps().len();
        let finished = desk.finish(alloc, moment);
        tell_trail(&mut hooks, &finished.trail, behind);
        Ended { finished, hooks }
    }
}

/// A desk whose listeners heard what its first entries tell.
fn opened<N: Net, P: Picker, L: Listener>(
    desk: Desk<N, P>,
    mut hooks: HooksOf<L>,
) -> HookedDesk<N, P, L>
    ensures desk { result.desk ≡ desk }
    ensures heard { AreTold L.heard L.leaves (told (facts_of desk.trail.lists desk.trail.steps)) hooks result.hooks }
{
    tell_desk(&mut hooks, &desk, 0);
    HookedDesk { desk, hooks }
}

/// Tells what the entries of a desk tell that stand behind so many.
fn tell_desk<N: Net, P: Picker, L: Listener>(
    hooks: &mut HooksOf<L>,
    desk: &Desk<N, P>,
    behind: usize,
)
    ensures { (ts : List (Timed Fact)) → IsFront ts behind desk.now.trail.lists desk.now.trail.steps
        → HearMore L.heard L.leaves ts (facts_of desk.now.trail.lists desk.now.trail.steps) hooks.old hooks.new }
{
    tell_behind(hooks, desk.names(), desk.requests(), desk.steps(), behind);
}

/// Tells what the entries of a whole trail tell that stand behind so many.
fn tell_trail<L: Listener>(hooks: &mut HooksOf<L>, trail: &Trail, behind: usize)
    ensures { (ts : List (Timed Fact)) → ArePlaced (lists_of trail.now) trail.now.steps
        → IsFront ts behind (lists_of trail.now) trail.now.steps
        → HearMore L.heard L.leaves ts (facts_of (lists_of trail.now) trail.now.steps) hooks.old hooks.new }
{
    tell_behind(
        hooks,
        trail.names.as_slice(),
        trail.requests.as_slice(),
        trail.steps.as_slice(),
        behind,
    );
}
