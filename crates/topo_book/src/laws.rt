ghost use Rattle.std.specs.Prelude.{◌≡◌, ℕ, Bool, Option, [], ◌∷◌, ◌++◌, List, if◌then◌else◌};
ghost use Rattle.host_name.specs.Addresses.{Address};
ghost use Rattle.rtt_mean.specs.Mean.{mean};
ghost use Rattle.topo_rules.specs.Maps.{kept_mean};
ghost use Rattle.topo_rules.specs.Rules.{opened};
ghost use Rattle.topo_book.specs.Means.{samples_since};
ghost use Rattle.topo_rules.specs.declared.event.TopoEvent.{TopoEvent};
ghost use Rattle.topo_rules.specs.declared.topology.Topology.{Topology};
ghost use Rattle.topo_book.specs.Books.{folded, answers, accepted};
ghost use Rattle.topo_book.specs.Fresh.{taken, is_accepted_verdict};

/// The law of offers: of no offers there are no answers and no accepted events. One more offer is answered by the topology
/// that the accepted events ahead of it make of the opening, and its event is accepted exactly where the answer says so.
///
/// So a book that opened with a topology and was offered a list of events gave `answers` of the list, its accepted events are
/// `accepted` of the list, and its topology is what those make of the opening.
pub fn offers_make_lists()
    ensures no_answer { (opening : Topology) → answers opening [] ≡ [] }
    ensures no_event { (opening : Topology) → accepted opening [] ≡ [] }
    ensures one_more_answer { (opening : Topology) (offers : List (TopoEvent × ℕ)) (event : TopoEvent) (pool : ℕ) → answers opening (offers ++ (event, pool) ∷ []) ≡ answers opening offers ++ taken (folded opening (accepted opening offers)).servers event pool ∷ [] }
    ensures one_more_event { (opening : Topology) (offers : List (TopoEvent × ℕ)) (event : TopoEvent) (pool : ℕ) → accepted opening (offers ++ (event, pool) ∷ []) ≡ (if is_accepted_verdict (taken (folded opening (accepted opening offers)).servers event pool) then accepted opening offers ++ event ∷ [] else accepted opening offers) }
{}

/// The law of means: the mean round trip time that is kept of a host is the mean of its samples, in order, since it last
/// stood as Unknown or not at all.
pub fn mean_is_of_samples()
    ensures { (hosts : List Address) (name : Option (List ℕ)) (direct : Bool) (events : List TopoEvent) (x : Address) → kept_mean (folded (opened hosts name direct) events).servers x ≡ mean (samples_since (opened hosts name direct) events x) }
{}
