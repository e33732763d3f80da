//! Values and documents that stand in more than one command.
ghost use Rattle.std.specs.Prelude.{◌≡◌, IfOk};
ghost use Rattle.bson_doc.specs.declared.value.Value.TheVariants.{Str};
ghost use Rattle.cmd_build.specs.Commands.{db_of as db_of_command, session};

use crate::Memory;
use crate::command::Command;
use bson_doc::{Bytes, Document, Lsid, Text, Value};
use std::alloc::Global;

/// The subtype of a UUID (bsonspec 1.1, binary).
pub(crate) const UUID: u8 = 4;

/// A text as a value.
pub(crate) fn text(alloc: Global, text: &str) -> Result<Value, Memory>
    ensures { IfOk result (λ v. v ≡ Str text.now) }
{
    Ok(Value::Str(Text::take(alloc, text)?))
}

/// A session's id.
pub(crate) fn session(alloc: Global, id: Lsid) -> Result<Document, Memory>
    ensures { IfOk result (λ d. d ≡ session id) }
{
    let bytes = Bytes::take(alloc, &id.0)?;
    let value = Value::Binary {
        subtype: UUID,
        bytes,
    };
    let mut session = Document::new(alloc);
    session.put(alloc, "id", value)?;
    Ok(session)
}

/// The database of a command: its own, else the client's.
pub(crate) fn db_of<'a>(command: &'a Command, db: &'a str) -> &'a str
    ensures { result.now ≡ db_of_command command.now.db db.now }
{
    match &command.db {
        Some(own) => own.as_str(),
        None => db,
    }
}
