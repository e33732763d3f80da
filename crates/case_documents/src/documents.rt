//! Documents as words: `NAME=VALUE` for each element. A value is one of [`plain_value`](crate::values::plain_value), or
//! what stands between `{` and `}` for a document, between `[` and `]` for an array, whose items have no names, and between
//! `scope:HEX{` and `}` for a code with a scope.
use crate::values::{name, plain_value, text};
use bson_doc::{Document, Name, Rows, Text, Value};
use case_files::{CaseFault, Words};
use std::alloc::Global;

/// What is being read, and was not closed yet.
#[derive(Drop)]
enum Open {
    Document(Document),
    Array(Rows<Value>),
    Scope(Text, Document),
}

/// What is open, with its name; an array's items and the outermost document have none.
#[derive(Drop)]
struct Frame {
    open: Open,
    name: Option<Name>,
}

/// The document of all words that are left.
pub fn document(alloc: Global, words: &mut Words<'_>) -> Result<Document, CaseFault> {
    let mut frames = Vec::new(alloc);
    frames.push(Frame {
        open: Open::Document(Document::new(alloc)),
        name: None,
    })?;
    for word in words.rest(alloc) {
        take_word(alloc, &mut frames, word)?;
    }
    let Some(frame) = frames.pop() else {
        return Err(CaseFault::Missing("document"));
    };
    if !frames.is_empty() {
        return Err(CaseFault::Missing("end of an inner document"));
    }
    outermost(frame)
}

/// Takes a word: it closes what is open, opens a value, or is one.
fn take_word(alloc: Global, frames: &mut Vec<Frame>, word: &str) -> Result<(), CaseFault> {
    let Some(frame) = frames.pop() else {
        return Err(CaseFault::word(alloc, word));
    };
    if word == "}" || word == "]" {
        let Frame { open, name } = frame;
        let value = closed(alloc, open, word)?;
        let Some(outer) = frames.pop() else {
            return Err(CaseFault::word(alloc, word));
        };
        frames.push(added(alloc, outer, name, value, word)?)?;
        return Ok(());
    }
    let (name, value) = parts(alloc, &frame.open, word)?;
    if let Some(open) = opened(alloc, value)? {
        frames.push(frame)?;
        frames.push(Frame { open, name })?;
        return Ok(());
    }
    let value = plain_value(alloc, value)?;
    frames.push(added(alloc, frame, name, value, word)?)?;
    Ok(())
}

/// The document that was open from the first word on.
fn outermost(frame: Frame) -> Result<Document, CaseFault> {
    let Frame { open, name: _name } = frame;
    match open {
        Open::Document(document) => Ok(document),
        Open::Array(_items) => Err(CaseFault::Missing("document")),
        Open::Scope(_code, _scope) => Err(CaseFault::Missing("document")),
    }
}

/// The name and the value of a word: an item of an array has no name.
fn parts<'a>(
    alloc: Global,
    open: &Open,
    word: &'a str,
) -> Result<(Option<Name>, &'a str), CaseFault> {
    if let Open::Array(_) = open {
        return Ok((None, word));
    }
    let Some((found, value)) = word.split_once('=') else {
        return Err(CaseFault::form(alloc, word));
    };
    Ok((Some(name(alloc, found)?), value))
}

/// What a value opens.
fn opened(alloc: Global, value: &str) -> Result<Option<Open>, CaseFault> {
    match value {
        "{" => Ok(Some(Open::Document(Document::new(alloc)))),
        "[" => Ok(Some(Open::Array(Rows::new(alloc)))),
        _ => {
            let Some(code) = value
                .strip_prefix("scope:")
                .and_then(|rest| rest.strip_suffix('{'))
            else {
                return Ok(None);
            };
            let code = text(alloc, code)?;
            Ok(Some(Open::Scope(code, Document::new(alloc))))
        }
    }
}

/// The value that the closing word makes of what was open.
fn closed(alloc: Global, open: Open, word: &str) -> Result<Value, CaseFault> {
    let (value, end) = match open {
        Open::Document(document) => (Value::Doc(document), "}"),
        Open::Array(items) => (Value::Array(items), "]"),
        Open::Scope(code, scope) => (Value::Scope { code, scope }, "}"),
    };
    if word == end {
        Ok(value)
    } else {
        Err(CaseFault::word(alloc, word))
    }
}

/// What is open, with the value added to it.
fn added(
    alloc: Global,
    frame: Frame,
    name: Option<Name>,
    value: Value,
    word: &str,
) -> Result<Frame, CaseFault> {
    let Frame { open, name: own } = frame;
    let open = match name {
        Some(name) => with_element(alloc, open, name, value, word)?,
        None => with_item(alloc, open, value, word)?,
    };
    Ok(Frame { open, name: own })
}

fn with_element(
    alloc: Global,
    open: Open,
    name: Name,
    value: Value,
    word: &str,
) -> Result<Open, CaseFault> {
    match open {
        Open::Document(mut document) => {
            document.push(name, value)?;
            Ok(Open::Document(document))
        }
        Open::Scope(code, mut scope) => {
            scope.push(name, value)?;
            Ok(Open::Scope(code, scope))
        }
        Open::Array(_items) => Err(CaseFault::word(alloc, word)),
    }
}

fn with_item(alloc: Global, open: Open, value: Value, word: &str) -> Result<Open, CaseFault> {
    match open {
        Open::Array(mut items) => {
            items.push(value)?;
            Ok(Open::Array(items))
        }
        Open::Document(_document) => Err(CaseFault::word(alloc, word)),
        Open::Scope(_code, _scope) => Err(CaseFault::word(alloc, word)),
    }
}
