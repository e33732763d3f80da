ghost use Rattle.std.specs.Prelude.{◌≡◌, pos, IfOk};
ghost use Rattle.msg_wire.specs.Framing.{frame};
ghost use Rattle.cmd_build.specs.Handshakes.{hello_document};
ghost use Rattle.desk_trail.specs.Requests.{id_at};

use crate::Memory;
use bson_doc::Bytes;
use cmd_build::hello;
use msg_wire::write;
use std::alloc::{AllocError, Global};

/// How many ids requests have: behind the greatest one comes 1 again.
const IDS: usize = 2_147_483_647;

/// The id of the request at a place.
pub fn id_of(place: usize) -> i32
    ensures { result ≡ id_at place }
{
    (place % IDS) as i32 + 1
}

/// The bytes of a hello with that id (MongoDB Handshake; Server Monitoring).
pub fn hello_bytes(alloc: Global, id: i32, first: bool) -> Result<Bytes, Memory>
    ensures { IfOk result (λ bytes. bytes ≡ frame id (pos 0) 0 (hello_document first)) }
{
    let document = hello(alloc, first)?;
    // (a hello is far below the bounds of depth and size, so that memory alone can be wanting)
    write(alloc, id, 0, 0, &document).map_err(|_| AllocError)
}
