ghost use Rattle.std.specs.Prelude.{◌≡◌};
ghost use Rattle.topo_book.specs.Fresh.{is_behind as is_behind_lem, event_version as event_version_lem, event_generation as event_generation_lem, by_generation as by_generation_lem, by_version};

use bson_doc::TopologyVersion;
use hello_reply::compare_version;
use topo_rules::TopoEvent;

/// Whether an event is accepted, or why not.
#[derive(Clone, Copy, Debug, Drop)]
pub enum Verdict {
    Accepted,
    Gone,
    StaleVersion {
        kept: Option<TopologyVersion>,
        came: Option<TopologyVersion>,
    },
    StaleGeneration {
        kept: u64,
        came: u64,
    },
}

/// The verdict on an event of a host that is there, by the version that is kept of it and the pool's generation.
pub fn judge(kept: Option<TopologyVersion>, event: &TopoEvent, pool: u64) -> Verdict
    ensures { result ≡ by_version kept event.now pool }
{
    if is_behind(kept, event) {
        return Verdict::StaleVersion {
            kept,
            came: event_version(event),
        };
    }
    judge_generation(event_generation(event), pool)
}

/// Whether what came is behind the version that is kept.
fn is_behind(kept: Option<TopologyVersion>, event: &TopoEvent) -> bool
    ensures { result ≡ is_behind_lem kept event.now }
{
    match event {
        TopoEvent::Reply { description, .. } => {
            compare_version(kept, description.version).is_gt()
        }
        TopoEvent::Refused { version, .. } => !compare_version(kept, *version).is_lt(),
        TopoEvent::Broken { .. } => false,
    }
}

/// The topology version that the event brings.
fn event_version(event: &TopoEvent) -> Option<TopologyVersion>
    ensures { result ≡ event_version_lem event.now }
{
    match event {
        TopoEvent::Reply { description, .. } => description.version,
        TopoEvent::Refused { version, .. } => *version,
        TopoEvent::Broken { .. } => None,
    }
}

/// The generation of the connection that the event came by.
fn event_generation(event: &TopoEvent) -> Option<u64>
    ensures { result ≡ event_generation_lem event.now }
{
    match event {
        TopoEvent::Reply { .. } => None,
        TopoEvent::Refused { generation, .. } => Some(*generation),
        TopoEvent::Broken { generation, .. } => *generation,
    }
}

/// The verdict by the generations alone.
fn judge_generation(came: Option<u64>, pool: u64) -> Verdict
    ensures { result ≡ by_generation_lem came pool }
{
    match came {
        Some(came) if came < pool => Verdict::StaleGeneration { kept: pool, came },
        _ => Verdict::Accepted,
    }
}
