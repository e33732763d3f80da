ghost use Rattle.std.specs.Prelude.{◌≡◌};
ghost use Rattle.topo_rules.specs.Primaries.{judged as verdict, elected as elected_lem, elected_before_17 as elected_before_17_lem, is_outranked as is_outranked_lem};

use crate::maxima::Maxima;
use bson_doc::Oid;
use hello_reply::ServerDescription;

/// From this wire version on a primary's election counts before its set version.
const ELECTION_FIRST: i32 = 17;

/// Whether a primary is stale: none where it is, else the maxima behind it (SDAM, updateRSFromPrimary).
pub fn judged(primary: &ServerDescription, most: Maxima) -> Option<Maxima>
    ensures { result ≡ verdict primary.now most }
{
    if primary.max_wire >= ELECTION_FIRST {
        elected(primary, most)
    } else {
        elected_before_17(primary, most)
    }
}

fn elected(primary: &ServerDescription, most: Maxima) -> Option<Maxima>
    ensures { result ≡ elected_lem primary.now most }
{
    let by_election = primary.election.cmp(&most.election);
    let by_version = primary.set_version.cmp(&most.version);
    if by_election.then(by_version).is_lt() {
        return None;
    }
    Some(Maxima {
        election: primary.election,
        version: primary.set_version,
    })
}

fn elected_before_17(primary: &ServerDescription, most: Maxima) -> Option<Maxima>
    ensures { result ≡ elected_before_17_lem primary.now most }
{
    if is_outranked(
        primary.election,
        primary.set_version,
        most.election,
        most.version,
    ) {
        return None;
    }
    let has_pair = primary.election.is_some() && primary.set_version.is_some();
    let election = if has_pair {
        primary.election
    } else {
        most.election
    };
    let version = if most.version.cmp(&primary.set_version).is_lt() {
        primary.set_version
    } else {
        most.version
    };
    Some(Maxima { election, version })
}

fn is_outranked(
    election: Option<Oid>,
    version: Option<i64>,
    most_election: Option<Oid>,
    most_version: Option<i64>,
) -> bool
    ensures { result ≡ is_outranked_lem election version most_election most_version }
{
    match (election, version, most_election, most_version) {
        (Some(election), Some(version), Some(most_election), Some(most_version)) => {
            let by_version = most_version.cmp(&version);
            let by_election = most_election.cmp(&election);
            by_version.then(by_election).is_gt()
        }
        _ => false,
    }
}
