ghost use Rattle.std.specs.Prelude.{◌≡◌, IfOk, codes};
ghost use Rattle.std.specs.Option.{option_and_then};
ghost use Rattle.bson_doc.specs.Readings.{stamp_of};
ghost use Rattle.cmd_outcome.specs.Times.{time_in};
ghost use Rattle.cmd_outcome.specs.Replies.{field};

use crate::Memory;
use crate::fields::document;
use bson_doc::{ClusterTime, Document};
use std::alloc::Global;

/// The cluster time that a reply gossips, as the server sent it: its `$clusterTime`, a document with a timestamp
/// `clusterTime`; None where it is absent or no such document (Driver Sessions, Gossipping the cluster time).
pub fn cluster_time(alloc: Global, reply: &Document) -> Result<Option<ClusterTime>, Memory>
    ensures time { IfOk result (λ time. time ≡ time_in reply.now) }
{
    let Some(body) = document(reply, "$clusterTime") else {
        return Ok(None);
    };
    let Some(stamp) = stamp_in(body) else {
        return Ok(None);
    };
    let body = body.copy(alloc)?;
    Ok(Some(ClusterTime { stamp, body }))
}

/// The timestamp of a cluster time.
fn stamp_in(body: &Document) -> Option<u64>
    ensures { result ≡ option_and_then stamp_of (field (codes "clusterTime") body.now) }
{
    body.get("clusterTime")?.stamp()
}
