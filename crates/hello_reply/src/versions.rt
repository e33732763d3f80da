ghost use Rattle.std.specs.Prelude.{◌≡◌};
ghost use Rattle.hello_reply.specs.Versions.{version_order};

use bson_doc::TopologyVersion;
use std::cmp::Ordering;

/// Which of two topology versions is the older (SDAM, Topology Version comparison): the order of their counters. Less, so
/// that what came is taken for newer than what is known, where one of them is absent or they are of different processes.
pub fn compare_version(a: Option<TopologyVersion>, b: Option<TopologyVersion>) -> Ordering
    ensures { result ≡ version_order a b }
{
    match (a, b) {
        (Some(a), Some(b)) if a.process == b.process => a.counter.cmp(&b.counter),
        _ => Ordering::Less,
    }
}
