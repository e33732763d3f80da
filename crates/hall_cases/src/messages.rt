//! The messages that are sent: `insert`, `update`, `delete`, `findAndModify`, `find`, `ping` and `hello`, each with the session
//! id of sixteen ones and the number `n`, where it is given, and the id `id`, which is 7 where it is not.
use bson_doc::{Bytes, Document, Text, Value};
use case_files::{CaseFault, Words};
use msg_wire::write;
use std::alloc::Global;

/// The message's bytes, or those that are asked for.
pub fn message(alloc: Global, words: &mut Words<'_>) -> Result<Bytes, CaseFault> {
    let name = words.next_as("command")?;
    let body = body(alloc, name, words.number(alloc, "n")?)?;
    let id: i32 = words.number(alloc, "id")?.unwrap_or(7);
    let Ok(bytes) = write(alloc, id, 0, 0, &body) else {
        return Err(CaseFault::Memory);
    };
    let all = bytes.as_slice();
    let to: usize = words.number(alloc, "to")?.unwrap_or(all.len());
    let from: usize = words.number(alloc, "from")?.unwrap_or(0);
    let end = to.min(all.len());
    let part = &all[from.min(end)..end];
    let mut sent = Bytes::take(alloc, part)?;
    if words.flag("twice") {
        for byte in part {
            sent.push(*byte)?;
        }
    }
    Ok(sent)
}

/// Bytes that no message begins with: a length of zero.
pub fn junk(alloc: Global) -> Result<Bytes, CaseFault> {
    Ok(Bytes::take(alloc, &[0; 26])?)
}

/// The document of a command.
fn body(alloc: Global, name: &str, number: Option<i64>) -> Result<Document, CaseFault> {
    let mut body = Document::new(alloc);
    match name {
        "insert" => body.put(alloc, "insert", text(alloc, "c")?)?,
        "update" => body.put(alloc, "update", text(alloc, "c")?)?,
        "delete" => body.put(alloc, "delete", text(alloc, "c")?)?,
        "findAndModify" => body.put(alloc, "findAndModify", text(alloc, "c")?)?,
        "find" => body.put(alloc, "find", text(alloc, "c")?)?,
        "ping" => body.put(alloc, "ping", Value::Int32(1))?,
        "hello" => body.put(alloc, "hello", Value::Int32(1))?,
        _ => return Err(CaseFault::word(alloc, name)),
    }
    if let Some(number) = number {
        let mut lsid = Document::new(alloc);
        let bytes = Bytes::take(alloc, &[1; 16])?;
        lsid.put(alloc, "id", Value::Binary { subtype: 4, bytes })?;
        body.put(alloc, "lsid", Value::Doc(lsid))?;
        body.put(alloc, "txnNumber", Value::Int64(number))?;
    }
    body.put(alloc, "$db", text(alloc, "d")?)?;
    Ok(body)
}

fn text(alloc: Global, text: &str) -> Result<Value, CaseFault> {
    Ok(Value::Str(Text::take(alloc, text)?))
}
