ghost use Rattle.std.specs.Prelude.{◌≡◌, IfOk};
ghost use Rattle.hello_reply.specs.Descriptions.{unknown};

use crate::{Memory, ServerDescription, ServerKind};
use bson_doc::Rows;
use host_name::Host;
use std::alloc::Global;

/// minWireVersion and maxWireVersion of a server that tells none (SDAM, ServerDescription).
pub(crate) const DEFAULT_WIRE: i32 = 0;

/// maxBsonObjectSize of a server that tells none, in bytes: 16 MiB.
pub(crate) const DEFAULT_DOC: u32 = 16_777_216;

/// maxMessageSizeBytes of a server that tells none.
pub(crate) const DEFAULT_MESSAGE: u32 = 48_000_000;

/// maxWriteBatchSize of a server that tells none, in documents.
pub(crate) const DEFAULT_BATCH: u32 = 100_000;

/// The server of which nothing is known: Unknown, with every other field absent or at its default.
pub fn default_unknown(alloc: Global, host: &Host) -> Result<ServerDescription, Memory>
    ensures { IfOk result (λ d. d ≡ unknown host.now) }
{
    let host = host.copy(alloc)?;
    Ok(ServerDescription {
        host,
        kind: ServerKind::Unknown,
        set_name: None,
        set_version: None,
        election: None,
        primary: None,
        me: None,
        listed: Rows::new(alloc),
        tags: Rows::new(alloc),
        min_wire: DEFAULT_WIRE,
        max_wire: DEFAULT_WIRE,
        session_minutes: None,
        version: None,
        max_doc: DEFAULT_DOC,
        max_message: DEFAULT_MESSAGE,
        max_batch: DEFAULT_BATCH,
        mean: None,
    })
}
