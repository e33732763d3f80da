ghost use Rattle.std.specs.Prelude.{◌≡◌, ◌≤◌, pos, None, IfErr, IfOk, OnOk};
ghost use Rattle.std.specs.Option.{option_copied};
ghost use Rattle.msg_wire.specs.Framing.{Framed, frame, message_of as framed_message};
ghost use Rattle.cmd_build.specs.Commands.{command_document};
ghost use Rattle.cmd_build.specs.Sizes.{IsWithin, Tells, excess, levels_of_time};
ghost use Rattle.request_build.specs.Inputs.{Answers, IsSendable};

use crate::extras::{extras_of, sizes_of};
use crate::ids::id_of;
use crate::{CommandRequest, MadeRequest, Memory, SendAt, Sending};
use bson_doc::Bytes;
use bson_wire::EncodeFault;
use cmd_build::{BuildFault, Extras, Sizes, append, measure};
use desk_trail::{Purpose, Request};
use msg_wire::front_of;
use std::alloc::{AllocError, Global};

/// The request of a command that has a connection, as the one at that place, or the sizes by which it is too large (CRUD; Driver
/// Sessions; MongoDB, Limits).
pub fn command_request(
    alloc: Global,
    sending: Sending<'_>,
    at: SendAt,
) -> Result<CommandRequest, Memory>
    requires { IsSendable sending.command.now sending.running.now (option_copied sending.time) }
    ensures answers { IfOk result (λ answer. Answers sending.entry at answer) }
{
    let Some(selected) = sending.running.selected() else {
        unreachable!()
    };
    let extras = extras_of(sending, selected);
    let id = id_of(at.place);
    match message_of(alloc, sending, &extras, sizes_of(selected), id) {
        Ok(bytes) => {
            let sent = Bytes::take(alloc, bytes.as_slice())?;
            let request = Request {
                stream: at.stream,
                id,
                purpose: Purpose::Command { op: at.op },
                bytes,
            };
            Ok(CommandRequest::Made(MadeRequest {
                request,
                bytes: sent,
            }))
        }
        Err(BuildFault::TooLarge { size, most }) => Ok(CommandRequest::TooLarge { size, most }),
        Err(BuildFault::Memory) => Err(AllocError),
    }
}

/// How many bytes a message has beside its document: a header of sixteen, four of flags, the section's kind.
const AROUND_DOCUMENT: u64 = 21;

/// The bytes of a command's message with that id.
fn message_of(
    alloc: Global,
    sending: Sending<'_>,
    extras: &Extras<'_>,
    sizes: Sizes,
    id: i32,
) -> Result<Bytes, BuildFault>
    requires levels { IsWithin 90 sending.command.now.act }
    requires time { levels_of_time (option_copied sending.time) ≤ 99 }
    requires size { sizes.max_message ≤ 48000000 }
    ensures asks { IfOk result (λ bytes. bytes ≡ frame id (pos 0) 0
        (command_document sending.entry.command.now sending.entry.settings.now.db extras.now (option_copied sending.entry.time))) }
    ensures framed { IfOk result (λ bytes. Framed bytes (framed_message id (pos 0) 0
        (command_document sending.entry.command.now sending.entry.settings.now.db extras.now (option_copied sending.entry.time)))) }
    ensures fits { OnOk result (excess sending.entry.command.now sending.entry.settings.now.db extras.now (option_copied sending.entry.time) sizes ≡ None) }
    ensures too_large { IfErr result (λ fault. Tells fault
        (excess sending.entry.command.now sending.entry.settings.now.db extras.now (option_copied sending.entry.time) sizes)) }
{
    let settings = sending.settings;
    let db = settings.db.as_str();
    let size = match measure(sending.command, db, extras, sending.time, sizes) {
        Ok(size) => size,
        Err(fault) => return Err(fault),
    };
    let spelling = (size - AROUND_DOCUMENT) as usize;
    let Ok(front) = front_of(alloc, spelling, id, 0, 0) else {
        return Err(BuildFault::Memory);
    };
    match append(alloc, front, sending.command, db, extras, sending.time) {
        Ok(bytes) => Ok(Bytes::from_vec(bytes)),
        Err(EncodeFault::Memory) => Err(BuildFault::Memory),
        Err(EncodeFault::Deep) => unreachable!(),
        Err(EncodeFault::Long) => unreachable!(),
    }
}
