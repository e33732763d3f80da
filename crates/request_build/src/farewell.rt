ghost use Rattle.std.specs.Prelude.{◌≡◌, pos, IfOk};
ghost use Rattle.msg_wire.specs.Framing.{Framed, frame, message_of};
ghost use Rattle.cmd_build.specs.Handshakes.{farewell_document};
ghost use Rattle.desk_trail.specs.declared.request.Purpose.TheVariants as purpose;
ghost use Rattle.desk_trail.specs.Requests.{IsMessageOf, id_at};

use crate::Memory;
use crate::ids::id_of;
use crate::made::MadeRequest;
use bson_doc::{Bytes, Lsid, Rows};
use cmd_build::farewell as farewell_document;
use desk_trail::{Purpose, Request};
use msg_wire::write;
use std::alloc::{AllocError, Global};

/// The bytes of a farewell with that id (Driver Sessions, endSessions).
fn farewell_bytes(alloc: Global, id: i32, ids: &Rows<Lsid>) -> Result<Bytes, Memory>
    ensures bytes { IfOk result (λ bytes. bytes ≡ frame id (pos 0) 0 (farewell_document ids.now)) }
    ensures framed { IfOk result (λ bytes. Framed bytes (message_of id (pos 0) 0 (farewell_document ids.now))) }
{
    let document = farewell_document(alloc, ids)?;
    // (10,000 sessions are far below the bounds of depth and size, so that memory alone can be wanting)
    write(alloc, id, 0, 0, &document).map_err(|_| AllocError)
}

/// A farewell of the sessions of these ids on a stream, as the request at that place.
pub fn farewell_request(
    alloc: Global,
    ids: &Rows<Lsid>,
    stream: u64,
    place: usize,
) -> Result<MadeRequest, Memory>
    ensures message { IfOk result (λ made. IsMessageOf (farewell_document ids.now) made.request) }
    ensures purpose { IfOk result (λ made. made.request.purpose ≡ purpose.Farewell) }
    ensures stream { IfOk result (λ made. made.request.stream ≡ stream) }
    ensures id { IfOk result (λ made. made.request.id ≡ id_at place) }
    ensures bytes { IfOk result (λ made. made.bytes ≡ made.request.bytes) }
{
    let id = id_of(place);
    let bytes = farewell_bytes(alloc, id, ids)?;
    let sent = Bytes::take(alloc, bytes.as_slice())?;
    let request = Request {
        stream,
        id,
        purpose: Purpose::Farewell,
        bytes,
    };
    Ok(MadeRequest {
        request,
        bytes: sent,
    })
}
