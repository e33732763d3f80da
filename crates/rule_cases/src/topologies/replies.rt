//! Hello replies: `hello PAIR..`, each pair a field's name and its value, `name=value`, in their order; a name may stand
//! twice. A value is `one`, `two`, `yes`, `no` or `null`, or its kind with a colon and the rest behind it.
use crate::servers::host;
use crate::topologies::state::Told;
use bson_doc::{Document, Name, Oid, Rows, Text, Value};
use case_files::{CaseFault, Words, parsed};
use hello_reply::{ReplyFault, describe};
use std::alloc::Global;
use topo_rules::TopoEvent;

/// The bytes of 1.0, as servers say `ok`.
const ONE: [u8; 8] = [0, 0, 0, 0, 0, 0, 0xf0, 0x3f];

/// The bytes of 2.0.
const TWO: [u8; 8] = [0, 0, 0, 0, 0, 0, 0, 0x40];

/// What the reply of these pairs says of the server `h`.
pub fn hello(alloc: Global, words: &mut Words<'_>) -> Result<Told, CaseFault> {
    let reply = reply(alloc, words)?;
    let host = host(alloc, "H")?;
    match describe(alloc, &reply, &host) {
        Ok(description) => Ok(Told::Described(description)),
        Err(ReplyFault::Memory) => Err(CaseFault::Memory),
        Err(fault) => Ok(Told::AtFault(fault)),
    }
}

/// A copy of the event that a reply of the host came, of the pairs behind `HOST [took=MICROSECONDS]`.
pub fn heard(alloc: Global, words: &mut Words<'_>) -> Result<TopoEvent, CaseFault> {
    let host = host(alloc, words.next_as("host")?)?;
    let sample = words.number(alloc, "took")?.unwrap_or(0);
    let reply = reply(alloc, words)?;
    match describe(alloc, &reply, &host) {
        Ok(description) => {
            let event = TopoEvent::Reply {
                description,
                sample,
            };
            Ok(event.copy(alloc)?)
        }
        Err(ReplyFault::Memory) => Err(CaseFault::Memory),
        Err(_) => Err(CaseFault::Refused("the reply is at fault")),
    }
}

fn reply(alloc: Global, words: &mut Words<'_>) -> Result<Document, CaseFault> {
    let mut reply = Document::new(alloc);
    for word in words.rest(alloc) {
        let Some((field, text)) = word.split_once('=') else {
            return Err(CaseFault::form(alloc, word));
        };
        reply.push(name(alloc, field)?, value(alloc, text)?)?;
    }
    Ok(reply)
}

fn value(alloc: Global, word: &str) -> Result<Value, CaseFault> {
    if let Some(found) = plain(word) {
        return Ok(found);
    }
    match word.split_once(':') {
        Some((kind, rest)) => kinded(alloc, word, kind, rest),
        None => Err(CaseFault::form(alloc, word)),
    }
}

/// A value that is written as a word alone.
fn plain(word: &str) -> Option<Value> {
    match word {
        "one" => Some(Value::Double(ONE)),
        "two" => Some(Value::Double(TWO)),
        "yes" => Some(Value::Bool(true)),
        "no" => Some(Value::Bool(false)),
        "null" => Some(Value::Null),
        _ => None,
    }
}

/// A value that is written as its kind, a colon and the rest. An ObjectId `oid` is twelve times a byte.
fn kinded(alloc: Global, word: &str, kind: &str, rest: &str) -> Result<Value, CaseFault> {
    match kind {
        "text" => text(alloc, rest),
        "int" => Ok(Value::Int32(parsed(alloc, rest)?)),
        "long" => Ok(Value::Int64(parsed(alloc, rest)?)),
        "oid" => oid(alloc, rest),
        "date" => Ok(Value::Date(parsed(alloc, rest)?)),
        "stamp" => Ok(Value::Stamp(parsed(alloc, rest)?)),
        _ => inner(alloc, word, kind, rest),
    }
}

/// A value with others inside: `texts:TEXT,..` and `array:NUMBER` are arrays, `ports:FIRST+COUNT` the array of so many hosts
/// `h:PORT`; `pairs:NAME-TEXT,..`, `version:PROCESS/COUNTER`, `short_version:PROCESS`, whose counter is an int32,
/// `process:PROCESS` and `counter:COUNTER` are documents.
fn inner(alloc: Global, word: &str, kind: &str, rest: &str) -> Result<Value, CaseFault> {
    match kind {
        "texts" => texts(alloc, rest),
        "array" => array(alloc, Value::Int32(parsed(alloc, rest)?)),
        "ports" => ports(alloc, rest),
        "pairs" => pairs(alloc, rest),
        "version" => version(alloc, rest),
        "short_version" => version_of(alloc, oid(alloc, rest)?, Value::Int32(1)),
        "process" => single(alloc, "processId", oid(alloc, rest)?),
        "counter" => single(alloc, "counter", Value::Int64(parsed(alloc, rest)?)),
        _ => Err(CaseFault::form(alloc, word)),
    }
}

fn name(alloc: Global, text: &str) -> Result<Name, CaseFault> {
    match Name::new(Text::take(alloc, text)?) {
        Ok(name) => Ok(name),
        Err(_) => Err(CaseFault::form(alloc, text)),
    }
}

fn text(alloc: Global, text: &str) -> Result<Value, CaseFault> {
    Ok(Value::Str(Text::take(alloc, text)?))
}

fn oid(alloc: Global, byte: &str) -> Result<Value, CaseFault> {
    Ok(Value::Oid(Oid([parsed(alloc, byte)?; 12])))
}

fn array(alloc: Global, item: Value) -> Result<Value, CaseFault> {
    let mut rows = Rows::new(alloc);
    rows.push(item)?;
    Ok(Value::Array(rows))
}

/// An array of the texts between commas; of none where there is no text at all.
fn texts(alloc: Global, items: &str) -> Result<Value, CaseFault> {
    let mut rows = Rows::new(alloc);
    if items.is_empty() {
        return Ok(Value::Array(rows));
    }
    for item in items.split(',') {
        rows.push(text(alloc, item)?)?;
    }
    Ok(Value::Array(rows))
}

/// An array of the hosts `h:FIRST`, and so on by port.
fn ports(alloc: Global, items: &str) -> Result<Value, CaseFault> {
    let Some((first, count)) = items.split_once('+') else {
        return Err(CaseFault::form(alloc, items));
    };
    let first: u16 = parsed(alloc, first)?;
    let count: u16 = parsed(alloc, count)?;
    let mut rows = Rows::new(alloc);
    for step in 0..count {
        let port = u32::from(first) + u32::from(step);
        let host = format!(in alloc; "h:{port}")?;
        rows.push(text(alloc, host.as_str())?)?;
    }
    Ok(Value::Array(rows))
}

/// A document of pairs `name-text`, with commas between; the empty one where there is no text at all.
fn pairs(alloc: Global, items: &str) -> Result<Value, CaseFault> {
    let mut document = Document::new(alloc);
    if items.is_empty() {
        return Ok(Value::Doc(document));
    }
    for item in items.split(',') {
        let Some((first, second)) = item.split_once('-') else {
            return Err(CaseFault::form(alloc, items));
        };
        document.push(name(alloc, first)?, text(alloc, second)?)?;
    }
    Ok(Value::Doc(document))
}

/// A document of one pair.
fn single(alloc: Global, first: &str, value: Value) -> Result<Value, CaseFault> {
    let mut document = Document::new(alloc);
    document.push(name(alloc, first)?, value)?;
    Ok(Value::Doc(document))
}

fn version(alloc: Global, parts: &str) -> Result<Value, CaseFault> {
    let Some((process, counter)) = parts.split_once('/') else {
        return Err(CaseFault::form(alloc, parts));
    };
    let process = oid(alloc, process)?;
    version_of(alloc, process, Value::Int64(parsed(alloc, counter)?))
}

fn version_of(alloc: Global, process: Value, counter: Value) -> Result<Value, CaseFault> {
    let mut document = Document::new(alloc);
    document.push(name(alloc, "processId")?, process)?;
    document.push(name(alloc, "counter")?, counter)?;
    Ok(Value::Doc(document))
}
