//! What holds of the definitions, each law as the contract of a function that does nothing.
ghost use Rattle.std.specs.Prelude.{◌≡◌, ◌≢◌, ◌↔◌, ℕ, ℤ, [], List, None, Some};
ghost use Rattle.std.specs.FinMap as map;
ghost use Rattle.std.specs.List.{All, Contains};
ghost use denote.Ref.{Bor};
ghost use Rattle.host_name.specs.Addresses.{Address};
ghost use Rattle.hello_reply.specs.declared.server_description.ServerDescription.{ServerDescription};
ghost use Rattle.read_pref.specs.Preferences.{Preference};
ghost use Rattle.read_pref.specs.declared.mode.Mode.TheVariants as mode;
ghost use Rattle.topo_rules.specs.Maps.{ServerMap};
ghost use Rattle.topo_rules.specs.Readings.{misfit_of};
ghost use Rattle.topo_rules.specs.declared.topology.Topology.{Topology};
ghost use Rattle.server_pick.specs.Candidates.{candidate_of, candidates};
ghost use Rattle.server_pick.specs.Laws.{BearsSetData, IsNear, IsOfCandidate, IsSet, TakesWrites};
ghost use Rattle.server_pick.specs.Picks.{picks};
ghost use Rattle.server_pick.specs.Runs.{Runs};
ghost use Rattle.server_pick.specs.declared.criteria.Criteria.{Criteria};
ghost use Rattle.server_pick.specs.declared.criteria.Need.TheVariants.{Write, Read};
ghost use Rattle.server_pick.specs.declared.picked.Picked.TheVariants.{Chosen, NoneFits, Incompatible};

use crate::Picker;

/// What is chosen was kept, and is in the latency window.
pub fn a_choice_is_kept_and_near()
    ensures { (m : ServerMap) (threshold : ℕ) (kept : List Address) (load : Address → ℕ) (w1 w2 : ℕ) (host : Address) → picks m threshold kept load w1 w2 ≡ Chosen host → IsNear m threshold kept host }
{}

/// What a picker keeps are hosts of candidates.
pub fn what_is_kept_is_a_candidate<P: Picker>()
    ensures { (t : Topology) (criteria : Criteria) (load : Address → ℕ) (p q : P) (kept : List Address) → Runs P.allows P.follows p (candidates t criteria load) kept q → All (IsOfCandidate (candidates t criteria load)) kept }
{}

/// A write goes to a primary, to a mongos, or to the single server.
pub fn a_write_goes_where_writes_go()
    ensures { (t : Topology) (criteria : Criteria) (load : Address → ℕ) → criteria.need ≡ Write → All (λ c. TakesWrites t.kind c.kind) (candidates t criteria load) }
{}

/// Nearest without tags lets in every member of a set that bears data.
pub fn nearest_lets_every_member_in()
    ensures { (t : Topology) (criteria : Criteria) (load : Address → ℕ) (p : Bor Preference) (d : ServerDescription) → IsSet t.kind → criteria.need ≡ Read p → p.now.mode ≡ mode.Nearest → p.now.tag_sets ≡ [] → Contains (map.values t.servers) d → BearsSetData d.kind → Contains (candidates t criteria load) (candidate_of load d) }
{}

/// A misfit is told whatever was kept.
pub fn a_misfit_comes_first()
    ensures { (m : ServerMap) (threshold : ℕ) (kept : List Address) (load : Address → ℕ) (w1 w2 : ℕ) (d : ServerDescription) → misfit_of m ≡ Some d → picks m threshold kept load w1 w2 ≡ Incompatible d.host d.min_wire d.max_wire }
{}

/// Without a misfit nothing is told to be incompatible.
pub fn nothing_is_incompatible_without_a_misfit()
    ensures { (m : ServerMap) (threshold : ℕ) (kept : List Address) (load : Address → ℕ) (w1 w2 : ℕ) (host : Address) (a b : ℤ) → misfit_of m ≡ None → picks m threshold kept load w1 w2 ≢ Incompatible host a b }
{}

/// None fits exactly where there is no misfit and nothing was kept.
pub fn none_fits_where_nothing_is_kept()
    ensures { (m : ServerMap) (threshold : ℕ) (kept : List Address) (load : Address → ℕ) (w1 w2 : ℕ) → (picks m threshold kept load w1 w2 ≡ NoneFits) ↔ ((misfit_of m ≡ None) × (kept ≡ [])) }
{}
