ghost use Rattle.std.specs.Prelude.{◌≡◌, IfOk, IsSome, OnErr, OnOk};
ghost use Rattle.std.specs.Option.{unwrap_or};
ghost use Rattle.std.specs.FinMap as map;
ghost use Rattle.topo_rules.specs.Changes.{IsChange};
ghost use Rattle.topo_rules.specs.Rules.{after, event_host};

use crate::verdict::{Verdict, judge};
use crate::{Memory, Taken};
use bson_doc::Buffer;
use std::alloc::Global;
use std::marker::Model;
use topo_rules::{Change, TopoEvent, Topology};

/// A topology with the events that it accepted. Contracts see the opening topology, the events, the topology that they make
/// of it, and how many further events have room.
///
/// The opening stands as it was given; what the accepted events made of it stands beside it, from the first one on.
#[derive(Drop)]
pub struct TopoBook {
    opening: Topology,
    current: Option<Topology>,
    accepted: Buffer<TopoEvent>,
}

impl Model for TopoBook {
    ghost use Rattle.std.specs.Prelude.{◌≡◌};
    ghost use Rattle.std.specs.Option.{unwrap_or};
    ghost use Rattle.topo_book.specs.Books.{Book, folded};

    ghost Value = { Book };

    ghost use Rattle.std.specs.Coded.{codes};
    ghost use Rattle.topo_rules.specs.contracts.topology.Topology as topologies;
    ghost use Rattle.topo_rules.specs.contracts.event.TopoEvent as events;

    ghost coded = { Prim.hlevel (codes, topologies.the_row.coded, events.the_row.coded) };

    ghost view = { λ b. record { opening = b.opening; topology = unwrap_or b.current b.opening; accepted = b.accepted.items; room = b.accepted.room } };

    ghost invariant = { λ b. unwrap_or b.current b.opening ≡ folded b.opening b.accepted.items };
}

impl TopoBook {
    ghost use Rattle.std.specs.Prelude.{◌≡◌, ◌+◌, ◌≤◌, ◌∷◌, ◌++◌, [], OnOk, OnErr, IfOk, IsSome, if◌then◌else◌};
    ghost use Rattle.std.specs.FinMap as map;
    ghost use Rattle.topo_rules.specs.Rules.{after, event_host};
    ghost use Rattle.topo_rules.specs.Changes.{IsChange};
    ghost use Rattle.topo_book.specs.Books.{IsKept, folded};
    ghost use Rattle.topo_book.specs.Fresh.{taken};
    ghost use Rattle.topo_book.specs.Offers.{verdict_of, is_accepted, IfAccepted};

    /// The book that opens with the topology. It takes no memory.
    pub fn new(alloc: Global, topology: Topology) -> TopoBook
        ensures opening { result.opening ≡ topology }
        ensures topology { result.topology ≡ topology }
        ensures accepted { result.accepted ≡ [] }
    {
        TopoBook {
            opening: topology,
            current: None,
            accepted: Buffer::new(alloc),
        }
    }

    /// The topology: what the accepted events made of the opening one, in order.
    pub fn topology(&self) -> &Topology
        ensures value { result.now ≡ self.now.topology }
        ensures folds { self.now.topology ≡ folded self.now.opening self.now.accepted }
    {
        match &self.current {
            Some(topology) => topology,
            None => &self.opening,
        }
    }

    /// The events that were accepted, in order.
    pub fn accepted(&self) -> &[TopoEvent]
        ensures { result.now ≡ self.now.accepted }
    {
        self.accepted.as_slice()
    }

    /// Takes room for so many accepted events ahead of them. After its Ok so many offers want no memory for the list of
    /// accepted events.
    pub fn reserve(&mut self, more: usize) -> Result<(), Memory>
        ensures kept { IsKept self.old self.new }
        ensures room { OnOk result (more ≤ self.new.room) }
    {
        self.accepted.reserve(more)
    }

    /// Offers an event, with the generation of its host's pool. An event that is not accepted changes nothing. Where memory
    /// is wanting the book is as it was; it may have more room.
    pub fn offer(
        &mut self,
        alloc: Global,
        event: TopoEvent,
        pool_generation: u64,
    ) -> Result<Taken, Memory>
        ensures answer { IfOk result (λ t. verdict_of t ≡ taken self.old.topology.servers event pool_generation) }
        ensures opening { self.new.opening ≡ self.old.opening }
        ensures accepted { IfOk result (λ t. self.new.accepted ≡ (if is_accepted t then self.old.accepted ++ event ∷ [] else self.old.accepted)) }
        ensures topology { IfOk result (λ t. self.new.topology ≡ (if is_accepted t then after self.old.topology event else self.old.topology)) }
        ensures change { IfOk result (λ t. IfAccepted t (IsChange self.old.topology event self.new.topology)) }
        ensures room { self.old.room ≤ self.new.room + 1 }
        ensures err { OnErr result (IsKept self.old self.new) }
    {
        let Some(kept) = self.topology().find(event.host()) else {
            return Ok(Taken::Gone);
        };
        match judge(kept.version, &event, pool_generation) {
            Verdict::Accepted => {
                let change = self.accept(alloc, event)?;
                Ok(Taken::Accepted(change))
            }
            Verdict::Gone => Ok(Taken::Gone),
            Verdict::StaleVersion { kept, came } => Ok(Taken::StaleVersion { kept, came }),
            Verdict::StaleGeneration { kept, came } => Ok(Taken::StaleGeneration { kept, came }),
        }
    }

    /// Takes an event in and notes it. Its place in the list is taken first, so that nothing wants memory behind the change
    /// of the topology.
    fn accept(&mut self, alloc: Global, event: TopoEvent) -> Result<Change, Memory>
        requires { IsSome (map.get self.old.topology.servers (event_host event)) }
        ensures opening { self.new.opening ≡ self.old.opening }
        ensures accepted { IfOk result (λ c. self.new.accepted ≡ self.old.accepted ++ event ∷ []) }
        ensures topology { IfOk result (λ c. self.new.topology ≡ after self.old.topology event) }
        ensures change { IfOk result (IsChange self.old.topology event (after self.old.topology event)) }
        ensures room { self.old.room ≤ self.new.room + 1 }
        ensures err { OnErr result (IsKept self.old self.new) }
    {
        self.accepted.reserve(1)?;
        let change = take_in(alloc, &mut self.current, &self.opening, &event)?;
        self.accepted.put(event);
        Ok(change)
    }
}

/// Takes an event into the topology that stands beside the opening one, which begins as a copy of it.
fn take_in(
    alloc: Global,
    current: &mut Option<Topology>,
    opening: &Topology,
    event: &TopoEvent,
) -> Result<Change, Memory>
    requires { IsSome (map.get (unwrap_or current.old opening.now).servers (event_host event.now)) }
    ensures topology { OnOk result (unwrap_or current.new opening.now ≡ after (unwrap_or current.old opening.now) event.now) }
    ensures change { IfOk result (IsChange (unwrap_or current.old opening.now) event.now (after (unwrap_or current.old opening.now) event.now)) }
    ensures err { OnErr result (current.new ≡ current.old) }
{
    match current {
        Some(topology) => topology.apply(alloc, event),
        None => {
            let (next, change) = opening.after(alloc, event)?;
            *current = Some(next);
            Ok(change)
        }
    }
}
