//! Laws over every list of events, as contracts of functions that do nothing.
ghost use Rattle.std.specs.Prelude.{◌≡◌, ℕ, true, false, Bool, List, Option, Some};
ghost use Rattle.std.specs.FinMap as map;
ghost use Rattle.std.specs.List.{list_any};
ghost use Rattle.host_name.specs.Addresses.{Address, is_same_address};
ghost use Rattle.hello_reply.specs.declared.server_description.ServerDescription.{ServerDescription};
ghost use Rattle.hello_reply.specs.declared.server_kind.ServerKind.TheVariants as server;
ghost use Rattle.topo_rules.specs.declared.event.TopoEvent.{TopoEvent};
ghost use Rattle.topo_rules.specs.declared.event.TopoEvent.TheVariants.{Reply};
ghost use Rattle.topo_rules.specs.declared.maxima.Maxima.{Maxima};
ghost use Rattle.topo_rules.specs.declared.topology.Topology.{Topology};
ghost use Rattle.topo_rules.specs.Changes.{stands};
ghost use Rattle.topo_rules.specs.Laws.{MayStart, StandsBehind, AtMostOnePrimary, KindTellsPrimary, MayRemove, BoundedMoves, behind_events, is_set_kind, listed_by};
ghost use Rattle.topo_rules.specs.Primaries.{judged};
ghost use Rattle.topo_rules.specs.Rules.{opened, event_host, after, name_differs};

/// Behind every list of events at most one server is a primary.
pub fn at_most_one_primary()
    ensures { (hosts : List Address) (name : Option (List ℕ)) (direct : Bool) (events : List TopoEvent) → MayStart hosts direct → AtMostOnePrimary (behind_events (opened hosts name direct) events).servers }
{}

/// Behind every list of events, of the two kinds of a replica set WithPrimary is had exactly where a primary stands.
pub fn kind_tells_primary()
    ensures { (hosts : List Address) (name : Option (List ℕ)) (direct : Bool) (events : List TopoEvent) → MayStart hosts direct → KindTellsPrimary (behind_events (opened hosts name direct) events) }
{}

/// Behind the reply of a primary of the set that is not stale, the hosts are those that it lists.
pub fn listed_hosts_stand()
    ensures { (t : Topology) (description : ServerDescription) (sample : ℕ) (most : Maxima) (x : Address) → description.kind ≡ server.Primary → is_set_kind t.kind ≡ true → name_differs t.set_name description.set_name ≡ false → judged description (record { election = t.max_election; version = t.max_set_version }) ≡ Some most → stands (after t (Reply description sample)) x ≡ list_any (is_same_address x) description.listed }
{}

/// What stands at a host behind an event is a default Unknown, what the event says of its own host, or, of another host, what
/// stood there.
pub fn nothing_else_stands()
    ensures { (t : Topology) (event : TopoEvent) (x : Address) (d : ServerDescription) → map.get (after t event).servers x ≡ Some d → StandsBehind t event x d }
{}

/// A host that an event of a host of the topology adds is one that the event lists.
pub fn added_hosts_are_listed()
    ensures { (t : Topology) (event : TopoEvent) (x : Address) → stands t (event_host event) ≡ true → stands t x ≡ false → stands (after t event) x ≡ true → list_any (is_same_address x) (listed_by event) ≡ true }
{}

/// A host that an event removes is the one that replied, or one that a primary's reply does not list.
pub fn removed_hosts_may_be()
    ensures { (t : Topology) (event : TopoEvent) (x : Address) → stands t x ≡ true → stands (after t event) x ≡ false → MayRemove event x }
{}

/// An event of a host of the topology adds no more hosts than it lists. It removes none where it is no reply, at most the
/// server itself where that is no primary, and else at most all that stood. So the hosts behind it are at most those that
/// stood and those that it lists.
pub fn moves_are_bounded()
    ensures { (t : Topology) (event : TopoEvent) → stands t (event_host event) ≡ true → BoundedMoves t event (after t event) }
{}
