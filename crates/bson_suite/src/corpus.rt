use crate::agreeing::agree;
use bson_doc::{BsonFault, Document};
use bson_wire::{EncodeFault, decode, encode};
use serde_json::Value;
use std::alloc::Global;
use suite_files::extended::{bytes_of, digits_of, document_in};
use suite_files::members::{items, text, text_member};
use suite_files::{Fault, Suite, Tally};

/// The BSON corpus.
pub struct Corpus;

impl Suite for Corpus {
    fn run(
        &self,
        alloc: Global,
        suite: &str,
        file: &Value,
        tally: &mut Tally,
    ) -> Result<(), Fault> {
        if suite != "bson-corpus" {
            return Err(Fault::told(alloc, "no such suite"));
        }
        let mut unread = 0;
        for case in items(alloc, file, "valid")? {
            let description = text_member(alloc, case, "description")?;
            let ended = valid(alloc, description, case, tally, &mut unread);
            tally.end(alloc, ended.map_err(|fault| fault.at(alloc, description)))?;
        }
        for case in items(alloc, file, "decodeErrors")? {
            let description = text_member(alloc, case, "description")?;
            let ended = refused(alloc, description, case, tally);
            tally.end(alloc, ended.map_err(|fault| fault.at(alloc, description)))?;
        }
        tally.note(unread, "texts or conversions not read")?;
        let texts = items(alloc, file, "parseErrors")?.len() as u64;
        tally.note(texts, "parse errors not run")?;
        Ok(())
    }
}

/// The members of a valid case that are not run.
const UNREAD: [&str; 4] = [
    "relaxed_extjson",
    "degenerate_extjson",
    "converted_bson",
    "converted_extjson",
];

/// A case of bytes that are read, and of the document that they spell.
fn valid(
    alloc: Global,
    description: &str,
    case: &Value,
    tally: &mut Tally,
    unread: &mut u64,
) -> Result<(), Fault> {
    for name in UNREAD {
        if case.get(name).is_some() {
            *unread = unread.saturating_add(1);
        }
    }
    let canonical = bytes_of(alloc, text_member(alloc, case, "canonical_bson")?)?;
    let expected = digits_of(alloc, canonical.as_slice())?;
    let document = read(alloc, canonical.as_slice())?;
    let got = written(alloc, &document)?;
    let what = format_args!("{description}: canonical_bson");
    tally.compare(alloc, what, expected.as_str(), got.as_str())?;
    if let Some(degenerate) = case.get("degenerate_bson") {
        let bytes = bytes_of(alloc, text(alloc, degenerate)?)?;
        let got = written(alloc, &read(alloc, bytes.as_slice())?)?;
        let what = format_args!("{description}: degenerate_bson");
        tally.compare(alloc, what, expected.as_str(), got.as_str())?;
    }
    if case.get("lossy").is_some() {
        *unread = unread.saturating_add(1);
        return Ok(());
    }
    let meant = document_in(alloc, text_member(alloc, case, "canonical_extjson")?)?;
    let got = if agree(&document, &meant) {
        "it"
    } else {
        "another"
    };
    let what = format_args!("{description}: canonical_extjson");
    tally.compare(alloc, what, "it", got)?;
    Ok(())
}

/// The bytes that the document is written as, in hexadecimal digits.
fn written(alloc: Global, document: &Document) -> Result<String, Fault> {
    match encode(alloc, document) {
        Ok(bytes) => Ok(digits_of(alloc, bytes.as_slice())?),
        Err(EncodeFault::Memory) => Err(Fault::Memory),
        Err(fault) => Err(Fault::told(alloc, format_args!("not written: {fault}"))),
    }
}

/// The document that all of the bytes spell.
fn read(alloc: Global, bytes: &[u8]) -> Result<Document, Fault> {
    match decode(alloc, bytes) {
        Ok((document, length)) if length == bytes.len() => Ok(document),
        Ok((_, length)) => {
            let text = format_args!("the document ends at {length} of {} bytes", bytes.len());
            Err(Fault::told(alloc, text))
        }
        Err(BsonFault::Memory) => Err(Fault::Memory),
        Err(fault) => Err(Fault::told(alloc, format_args!("not read: {fault}"))),
    }
}

/// A case of bytes that are refused.
fn refused(alloc: Global, description: &str, case: &Value, tally: &mut Tally) -> Result<(), Fault> {
    let bytes = bytes_of(alloc, text_member(alloc, case, "bson")?)?;
    let got = match decode(alloc, bytes.as_slice()) {
        Ok((_, length)) if length == bytes.len() => "read",
        Ok(_) => "refused",
        Err(BsonFault::Memory) => return Err(Fault::Memory),
        Err(_) => "refused",
    };
    tally.compare(alloc, description, "refused", got)?;
    Ok(())
}
