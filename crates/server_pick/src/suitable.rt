ghost use Rattle.std.specs.Prelude.{◌≡◌, false, filter, slice_get};
ghost use Rattle.std.specs.FinMap as map;
ghost use Rattle.std.specs.List.{list_any};
ghost use Rattle.std.specs.Option.{option_map_or};
ghost use Rattle.server_pick.specs.Candidates.{or_else as or_else_lem, of_mode as of_mode_lem, of_set as of_set_lem, of_sharded as of_sharded_lem, suitable as suitable_lem};
ghost use Rattle.server_pick.specs.Sieves.{lets, passes};
ghost use Rattle.server_pick.specs.Tags.{tagged as tagged_lem};

use crate::sieve::{Kinds, Sieve};
use crate::{Criteria, Need};
use host_name::Host;
use read_pref::{Mode, ReadPref, TagSet};
use topo_rules::{TopoKind, Topology};

/// Whether the server at the place passes.
fn passes_at(topology: &Topology, place: usize, sieve: &Sieve<'_>) -> bool
    ensures { result ≡ option_map_or (passes sieve.now) (slice_get (map.values topology.now.servers) place) false }
{
    match topology.at(place) {
        Some(description) => sieve.passes(description),
        None => false,
    }
}

/// Whether some server passes.
fn some_pass(topology: &Topology, sieve: &Sieve<'_>) -> bool
    ensures { result ≡ list_any (passes sieve.now) (map.values topology.now.servers) }
{
    for place in 0..topology.len() {
        if passes_at(topology, place, sieve) {
            return true;
        }
    }
    false
}

/// The servers of the kinds that the tag sets let in.
fn tagged<'a>(topology: &Topology, kinds: Kinds, tag_sets: &'a [TagSet]) -> Sieve<'a>
    ensures { filter (passes result) (map.values topology.now.servers) ≡ tagged_lem tag_sets.now (filter (lets kinds) (map.values topology.now.servers)) }
{
    if tag_sets.is_empty() {
        return Sieve::of(kinds);
    }
    for tags in tag_sets {
        let sieve = Sieve {
            kinds,
            tags: Some(tags),
            avoid: None,
        };
        if some_pass(topology, &sieve) {
            return sieve;
        }
    }
    Sieve::of(Kinds::Nothing)
}

/// The first sieve where some server passes it, else the second.
#[tactic(auto, using(crate::proofs::SieveLemmas::or_else_taken, crate::proofs::SieveLemmas::or_else_other))]
fn or_else<'a>(topology: &Topology, sieve: Sieve<'a>, other: Sieve<'a>) -> Sieve<'a>
    ensures { filter (passes result) (map.values topology.now.servers) ≡ or_else_lem (filter (passes sieve.entry) (map.values topology.now.servers)) (filter (passes other.entry) (map.values topology.now.servers)) }
{
    if some_pass(topology, &sieve) {
        return sieve;
    }
    other
}

/// The members of a replica set that a read may go to.
#[tactic(auto, using(crate::proofs::SieveLemmas::mode_primary, crate::proofs::SieveLemmas::mode_primary_preferred, crate::proofs::SieveLemmas::mode_secondary, crate::proofs::SieveLemmas::mode_secondary_preferred, crate::proofs::SieveLemmas::mode_nearest))]
fn of_mode<'a>(topology: &Topology, preference: &'a ReadPref) -> Sieve<'a>
    ensures { filter (passes result) (map.values topology.now.servers) ≡ of_mode_lem preference.now.mode preference.now.tag_sets (map.values topology.now.servers) }
{
    let tag_sets = preference.tag_sets().as_slice();
    let primary = Sieve::of(Kinds::Primary);
    match preference.mode() {
        Mode::Primary => primary,
        Mode::PrimaryPreferred => or_else(
            topology,
            primary,
            tagged(topology, Kinds::Secondary, tag_sets),
        ),
        Mode::Secondary => tagged(topology, Kinds::Secondary, tag_sets),
        Mode::SecondaryPreferred => or_else(
            topology,
            tagged(topology, Kinds::Secondary, tag_sets),
            primary,
        ),
        Mode::Nearest => tagged(topology, Kinds::Member, tag_sets),
    }
}

/// The members of a replica set that may take what is needed.
#[tactic(auto, using(crate::proofs::SieveLemmas::set_write, crate::proofs::SieveLemmas::set_read))]
fn of_set<'a>(topology: &Topology, need: Need<'a>) -> Sieve<'a>
    ensures { filter (passes result) (map.values topology.now.servers) ≡ of_set_lem need.entry (map.values topology.now.servers) }
{
    match need {
        Need::Write => Sieve::of(Kinds::Primary),
        Need::Read(preference) => of_mode(topology, preference),
    }
}

/// The routers of a sharded cluster, without the one to avoid where there is another.
#[tactic(auto, using(crate::proofs::SieveLemmas::sharded_other, crate::proofs::SieveLemmas::sharded_all))]
fn of_sharded<'a>(topology: &Topology, avoid: Option<&'a Host>) -> Sieve<'a>
    ensures { filter (passes result) (map.values topology.now.servers) ≡ of_sharded_lem avoid.entry (map.values topology.now.servers) }
{
    let all = Sieve::of(Kinds::Mongos);
    match avoid {
        Some(host) => {
            let others = Sieve {
                kinds: Kinds::Mongos,
                tags: None,
                avoid: Some(host),
            };
            or_else(topology, others, all)
        }
        None => all,
    }
}

/// Which servers of the topology are suitable.
#[tactic(auto, using(crate::proofs::SieveLemmas::suits_unknown, crate::proofs::SieveLemmas::suits_single, crate::proofs::SieveLemmas::suits_sharded, crate::proofs::SieveLemmas::suits_no_primary, crate::proofs::SieveLemmas::suits_with_primary))]
pub fn suitable<'a>(topology: &Topology, criteria: &Criteria<'a>) -> Sieve<'a>
    ensures { filter (passes result) (map.values topology.now.servers) ≡ suitable_lem topology.now.kind criteria.now (map.values topology.now.servers) }
{
    match topology.kind() {
        TopoKind::Unknown => Sieve::of(Kinds::Nothing),
        TopoKind::Single => Sieve::of(Kinds::Known),
        TopoKind::Sharded => of_sharded(topology, criteria.avoid),
        TopoKind::NoPrimary | TopoKind::WithPrimary => of_set(topology, criteria.need),
    }
}
