ghost use Rattle.std.specs.Prelude.{◌≡◌, ◌≤◌, ◌^◌, [], length, min, true, false, IfErr, IfOk, OnErr, OnOk};
ghost use Rattle.net_link.specs.Causes.{Rose};
ghost use Rattle.desk_trail.specs.Facts.{facts_of};
ghost use Rattle.desk_trail.specs.Legal.{IsComplete, IsLegal, point_behind};
ghost use Rattle.desk_trail.specs.Written.{lists_of};
ghost use Rattle.legal_trail.specs.Recorded.{Recorded, told_in};
ghost use Rattle.desk_core.specs.Appends.{Appends, AreQuiet, NamesNone, Tells, TellsAside, TellsNone, TellsOf};
ghost use Rattle.desk_core.specs.Due.{IsNext};
ghost use Rattle.desk_core.specs.Ending.{ArePoolsShut};
ghost use Rattle.desk_core.specs.Sights.{MeansCheck};
ghost use Rattle.desk_trail.specs.Attempts.{AtCommand};
ghost use Rattle.desk_core.specs.Nexts.{AreAnsweredAhead, IsNextIn};
ghost use Rattle.desk_core.specs.Picks.{AsksPicker};
ghost use Rattle.desk_core.specs.State.{AreShallow, now_of};
ghost use Rattle.desk_core.specs.Steps.{MeansStep};
ghost use Rattle.wired_trail.specs.Faults.{IsCounted};
ghost use Rattle.wired_trail.specs.Wired.{IsWired};
ghost use Rattle.write_effects.specs.Each.{EachTakesEffectOnce};

use crate::counts::InFlight;
use crate::lanes::next_in;
use crate::opening::{core_of, operations_of};
use crate::operation::Operation;
use crate::parts::Parts;
use crate::state::Core;
use crate::{Due, Finished, Memory, Returned, Sight, Words};
use bson_doc::Rows;
use cmd_build::Command;
use conn_uri::Settings;
use desk_trail::{Request, Step};
use host_name::Host;
use net_link::Net;
use server_pick::Picker;
use sess_step::{CommandAt, LeaseBook};
use std::alloc::Global;
use std::marker::Model;
use topo_rules::TopoEvent;
use watch_step::LAST_MOMENT;
use write_effects::once::each_write_takes_effect_once;

/// A client's core. Each call is one step, which waits for nothing: it asks the net, and appends to the trail what came of it.
///
/// Unless it stopped for want of memory, its trail is legal and complete between any two calls; behind a stop it is legal up to
/// there.
#[derive(Drop)]
pub struct Desk<N: Net, P: Picker> {
    core: Core<N>,
    operations: Vec<Operation>,
    parts: Parts<P>,
}

impl<N: Net, P: Picker> Model for Desk<N, P> {
    ghost use Rattle.desk_core.specs.State.{Desk as State};
    ghost use Rattle.desk_core.specs.Running.{IsDesk};
    ghost use Rattle.std.specs.Coded.{codes};
    ghost use Rattle.bson_doc.specs.contracts.value.Value as values;
    ghost use Rattle.topo_rules.specs.contracts.topology.Topology as topologies;

    ghost Value = { State N P };

    ghost coded = { Prim.hlevel (codes, N.code, P.code, values.the_row.coded, topologies.the_row.coded) };

    ghost view = { λ d. record {
      net = d.core.net;
      trail = d.core.trail;
      picker = d.parts.picker;
      last = d.core.last;
      is_stopped = d.core.is_stopped;
    } };

    ghost invariant = { λ d. IsDesk d.core.trail d.operations.items d.parts.in_flight d.parts.sessions d.core.last d.core.is_stopped };
}

impl<N: Net, P: Picker> Desk<N, P> {
    /// The desk of a client with these settings, which is to run these commands with that picker; it names its seeds (SDAM, Initial
    /// Servers). A net that tells has told nothing yet, there are at most 16,777,216 commands, and none has a document of more than
    /// 90 levels. Where memory is wanting net and picker come back as they were.
    pub fn new(
        alloc: Global,
        net: N,
        settings: Settings,
        commands: Rows<Command>,
        picker: P,
        moment: u64,
    ) -> Result<Desk<N, P>, Returned<N, P>>
        requires fresh { N.tells → N.history net ≡ [] }
        requires few { length commands ≤ 16777216 }
        requires levels { AreShallow commands }
        ensures client { IfOk result (λ d. d.trail.client ≡ record { settings = settings; commands = commands; began = min moment (2 ^ 62) }) }
        ensures now { IfOk result (λ d. d.last ≡ min moment (2 ^ 62)) }
        ensures quiet { IfOk result (λ d. AreQuiet (min moment (2 ^ 62)) d.trail.steps) }
        ensures names { IfOk result (λ d. TellsNone (told_in d.trail)) }
        ensures runs { IfOk result (λ d. d.is_stopped ≡ false) }
        ensures net { IfOk result (λ d. d.net ≡ net) }
        ensures picker { IfOk result (λ d. d.picker ≡ picker) }
        ensures returned { IfErr result (λ r. (r.net ≡ net) × (r.picker ≡ picker)) }
    {
        let now = moment.min(LAST_MOMENT);
        let Ok(operations) = operations_of(alloc, commands.as_slice()) else {
            return Err(Returned { net, picker });
        };
        match core_of(alloc, net, settings, commands, now) {
            Ok(core) => Ok(Desk {
                core,
                operations,
                parts: Parts {
                    in_flight: InFlight::new(alloc),
                    sessions: LeaseBook::new(alloc),
                    picker,
                },
            }),
            Err(net) => Err(Returned { net, picker }),
        }
    }

    /// Whether it stopped for want of memory.
    pub fn is_stopped(&self) -> bool
        ensures { result ≡ self.now.is_stopped }
    {
        self.core.is_stopped()
    }

    /// All that it did so far, entry by entry: a legal trail, and a complete one unless the desk stopped. It leads to the point.
    /// Where the net tells, it is what that told. It tells at most as many failed calls as the net counted.
    pub fn steps(&self) -> &[Step]
        ensures value { result.now ≡ self.now.trail.steps }
        ensures wired { N.tells → IsWired self.now.trail.client (N.history self.now.net) (facts_of self.now.trail.lists self.now.trail.steps) }
        ensures counted { IsCounted (N.faults self.now.net) self.now.trail.steps }
        ensures legal { IsLegal self.now.trail.client self.now.trail.lists self.now.trail.steps }
        ensures complete { self.now.is_stopped ≡ false → IsComplete self.now.trail.client self.now.trail.lists self.now.trail.steps }
        ensures point { self.now.trail.point ≡ point_behind self.now.trail.client (facts_of self.now.trail.lists self.now.trail.steps) }
    {
        self.core.wired.steps()
    }

    /// The commands that it was given.
    pub fn commands(&self) -> &[Command]
        ensures value { result.now ≡ self.now.trail.client.commands }
    {
        self.core.commands()
    }

    /// The names of the hosts, by their numbers.
    pub fn names(&self) -> &[Host]
        ensures value { result.now ≡ self.now.trail.lists.names }
    {
        self.core.wired.names()
    }

    /// The events that were offered to the topology, in order.
    pub fn events(&self) -> &[TopoEvent]
        ensures value { result.now ≡ self.now.trail.lists.events }
    {
        self.core.wired.events()
    }

    /// The requests that were queued, in order.
    pub fn requests(&self) -> &[Request]
        ensures value { result.now ≡ self.now.trail.lists.requests }
    {
        self.core.wired.requests()
    }

    /// Moves one command as far as it goes without waiting, through at most one look for a server (Server Selection; CMAP; Driver
    /// Sessions; Retryable Writes). The command is there and is not answered. `moment` is in microseconds; what is appended to the
    /// trail has the moment of the step, which is no earlier than the last one's. `Answered` says that the command was answered;
    /// `Wait` that it waits, until a later moment, for a server, a connection or the net; `Again` that its next step goes on at
    /// once: it found no session to lease, since the id of `words.c` and `words.d` was used before, and leases one by other words;
    /// or its attempt ended behind this step's look, and it looks for a server once more. After `Memory` the desk is stopped.
    /// What it appends of a command is of this one, also where it stops; a look among it is by `words.a` and `words.b`, and a session
    /// that it leases fresh has the id of `words.c` and `words.d`. What a look kept is what the picker allowed, which is asked of each
    /// candidate then, and not in a step without a look.
    pub fn step_op(
        &mut self,
        alloc: Global,
        op: u32,
        moment: u64,
        words: Words,
    ) -> Result<Sight, Memory>
        requires runs { self.old.is_stopped ≡ false }
        requires there { AtCommand self.old.trail.point.state op (λ c. c.is_finished ≡ false) }
        ensures now { self.new.last ≡ now_of self.old.last moment }
        ensures sight { IfOk result (MeansStep (now_of self.old.last moment) op words self.old.trail self.new.trail) }
        ensures appends { Appends (Rose (N.faults self.old.net) (N.faults self.new.net)) (now_of self.old.last moment) self.old.trail self.new.trail }
        ensures names { TellsOf op words self.old.trail self.new.trail }
        ensures asks { OnOk result (AsksPicker P.allows P.follows (now_of self.old.last moment) op self.old.trail self.new.trail self.old.picker self.new.picker) }
        ensures ok { OnOk result (self.new.is_stopped ≡ false) }
        ensures err { OnErr result (self.new.is_stopped ≡ true) }
        ensures faults { N.faults self.old.net ≤ N.faults self.new.net }
    {
        let now = self.core.tick(moment);
        let at = CommandAt { op, moment: now };
        let operation = &mut self.operations[op as usize];
        let sight = self.core.step(alloc, at, operation, &mut self.parts, words);
        if sight.is_err() {
            self.core.stop(now);
        }
        sight
    }

    /// The command of the lane that comes next: the first of it that is not answered; None exactly where all are.
    pub fn next_of(&self, lane: u32) -> Option<u32>
        requires runs { self.now.is_stopped ≡ false }
        ensures next { IsNextIn self.now.trail.client self.now.trail.point.state lane result }
    {
        self.next_from(lane, 0)
    }

    /// The same, where each command of the lane ahead of a place is answered: those are not looked at again.
    pub fn next_from(&self, lane: u32, from: u32) -> Option<u32>
        requires runs { self.now.is_stopped ≡ false }
        requires ahead { AreAnsweredAhead self.now.trail.client self.now.trail.point.state lane from }
        ensures next { IsNextIn self.now.trail.client self.now.trail.point.state lane result }
    {
        next_in(self.core.commands(), self.operations.as_slice(), lane, from)
    }

    /// Begins, drives or ends the check of one server (Server Monitoring). `moment` is in microseconds; what is appended to the
    /// trail has the moment of the step, which is no earlier than the last one's. `Answered` says that behind the step no check
    /// of the server is due or runs, so too of a number that no server of the topology has; `Wait` that one runs whose answer is
    /// waited for until a later moment, connectTimeoutMS after it began. It is never `Again`. After `Memory` the desk is stopped.
    /// It appends no entry of a command, also where it stops.
    pub fn step_check(&mut self, alloc: Global, host: u32, moment: u64) -> Result<Sight, Memory>
        requires runs { self.old.is_stopped ≡ false }
        ensures now { self.new.last ≡ now_of self.old.last moment }
        ensures sight { IfOk result (MeansCheck self.new.trail.client self.new.trail.point.state (now_of self.old.last moment) host) }
        ensures appends { Appends (Rose (N.faults self.old.net) (N.faults self.new.net)) (now_of self.old.last moment) self.old.trail self.new.trail }
        ensures names { TellsAside self.old.trail self.new.trail }
        ensures picker { self.new.picker ≡ self.old.picker }
        ensures ok { OnOk result (self.new.is_stopped ≡ false) }
        ensures err { OnErr result (self.new.is_stopped ≡ true) }
        ensures faults { N.faults self.old.net ≤ N.faults self.new.net }
    {
        let now = self.core.tick(moment);
        let sight = self.core.check(alloc, now, host);
        if sight.is_err() {
            self.core.stop(now);
        }
        sight
    }

    /// The server whose check is due or running and earliest, of those the least number; None exactly where the topology has no
    /// server. A check that runs counts as due at the moment of the last step.
    pub fn next_due(&self) -> Option<Due>
        requires runs { self.now.is_stopped ≡ false }
        ensures next { IsNext self.now.trail.point.state self.now.last result }
    {
        self.core.next_due()
    }

    /// Ends it: farewells are asked of the sessions that were given back (Driver Sessions, endSessions), as far as there is memory
    /// for them; then its pools are closed. A desk that stopped appends nothing to its trail.
    /// Where the net tells, the trail is what that told; and where that is a history of honest members, each command took effect at
    /// most once, and a write that was answered ok exactly once. It appends no entry of a command, and the trail tells at most as many
    /// failed calls as the net counted.
    pub fn finish(self, alloc: Global, moment: u64) -> Finished<N, P>
        ensures wired { N.tells → IsWired self.trail.client (N.history result.net) (facts_of (lists_of result.trail) result.trail.steps) }
        ensures counted { IsCounted (N.faults result.net) result.trail.steps }
        ensures once { N.tells → EachTakesEffectOnce self.trail.client (facts_of (lists_of result.trail) result.trail.steps) (N.history result.net) }
        ensures legal { IsLegal self.trail.client (lists_of result.trail) result.trail.steps }
        ensures complete { self.is_stopped ≡ false → IsComplete self.trail.client (lists_of result.trail) result.trail.steps }
        ensures shut { self.is_stopped ≡ false
            → ArePoolsShut (point_behind self.trail.client (facts_of (lists_of result.trail) result.trail.steps)).state }
        ensures appends { (new : Recorded) × Appends ⊥ (now_of self.last moment) self.trail new
            × (lists_of result.trail ≡ new.lists) × (result.trail.steps ≡ new.steps) }
        ensures names { Tells NamesNone (facts_of self.trail.lists self.trail.steps) (facts_of (lists_of result.trail) result.trail.steps) }
        ensures settings { result.settings ≡ self.trail.client.settings }
        ensures commands { result.commands ≡ self.trail.client.commands }
        ensures picker { result.picker ≡ self.picker }
        ensures stopped { result.stopped ≡ self.is_stopped }
        ensures faults { N.faults self.net ≤ N.faults result.net }
    {
        each_write_takes_effect_once();
        let Desk {
            mut core,
            parts,
            ..
        } = self;
        let stopped = core.is_stopped();
        let now = core.tick(moment);
        let finished = core.finish(alloc, &parts.sessions, now);
        Finished {
            net: finished.net,
            trail: finished.parts.trail,
            settings: finished.parts.settings,
            commands: finished.parts.commands,
            picker: parts.picker,
            stopped,
        }
    }
}
