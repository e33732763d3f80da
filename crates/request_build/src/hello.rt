ghost use Rattle.std.specs.Prelude.{◌≡◌, pos, IfOk};
ghost use Rattle.msg_wire.specs.Framing.{frame};
ghost use Rattle.cmd_build.specs.Handshakes.{hello_document};
ghost use Rattle.desk_trail.specs.Owed.{IsHello};
ghost use Rattle.desk_trail.specs.Requests.{id_at};

use crate::Memory;
use crate::ids::id_of;
use crate::made::MadeRequest;
use bson_doc::Bytes;
use cmd_build::hello as hello_document;
use desk_trail::{Purpose, Request};
use msg_wire::write;
use std::alloc::{AllocError, Global};

/// What a hello is for.
#[derive(Clone, Copy, Drop)]
pub struct HelloFor {
    /// The check or the greeting that says it.
    pub purpose: Purpose,
    /// The stream on which it goes out.
    pub stream: u64,
    /// Whether it is the first on its stream.
    pub first: bool,
}

/// The bytes of a hello with that id (MongoDB Handshake; Server Monitoring).
fn hello_bytes(alloc: Global, id: i32, first: bool) -> Result<Bytes, Memory>
    ensures { IfOk result (λ bytes. bytes ≡ frame id (pos 0) 0 (hello_document first)) }
{
    let document = hello_document(alloc, first)?;
    // (a hello is far below the bounds of depth and size, so that memory alone can be wanting)
    write(alloc, id, 0, 0, &document).map_err(|_| AllocError)
}

/// A hello, as the request at that place.
pub fn hello_request(alloc: Global, hello: HelloFor, place: usize) -> Result<MadeRequest, Memory>
    ensures hello { IfOk result (λ made. IsHello hello.purpose hello.stream hello.first made.request) }
    ensures id { IfOk result (λ made. made.request.id ≡ id_at place) }
    ensures bytes { IfOk result (λ made. made.bytes ≡ made.request.bytes) }
{
    let HelloFor {
        purpose,
        stream,
        first,
    } = hello;
    let id = id_of(place);
    let bytes = hello_bytes(alloc, id, first)?;
    let sent = Bytes::take(alloc, bytes.as_slice())?;
    let request = Request {
        stream,
        id,
        purpose,
        bytes,
    };
    Ok(MadeRequest {
        request,
        bytes: sent,
    })
}
