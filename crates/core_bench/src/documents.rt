//! How long `bson_wire` takes to read and to write one document.
//!
//! `documents FILE ROUNDS` reads the bytes of a document from FILE, decodes them ROUNDS times, encodes what was read ROUNDS
//! times, and prints for each the nanoseconds that one took in the quickest of five batches, and the bytes. `scripts/bench` runs
//! it beside other implementations.

ghost use Rattle.std.specs.Prelude.{◌≢◌, IfSome};

use crate::timing::quickest;
use crate::trouble::Trouble;
use crate::words::rounds;
use bson_doc::Document;
use bson_wire::{decode, encode};
use std::alloc::Global;
use std::env::Args;
use std::fs;

/// Measures what the words ask for.
pub fn measure(rt: &HostRuntime, words: &mut Args) -> Result<(), Trouble> {
    let (file, rounds) = parsed(words).ok_or(Trouble::Words)?;
    let bytes = fs::read(rt, file.as_str()).map_err(|_| Trouble::File)?;
    let length = bytes.len();
    let decoding = time_decoding(rt, rounds, bytes.as_slice())?;
    let _ = println!(rt; "decode {decoding} {length}");
    let encoding = time_encoding(rt, rounds, bytes.as_slice())?;
    let _ = println!(rt; "encode {encoding} {length}");
    Ok(())
}

/// How long the bytes, which are one document, take to be read.
fn time_decoding(rt: &HostRuntime, rounds: u32, bytes: &[u8]) -> Result<u64, Trouble>
    requires { rounds ≢ 0 }
{
    let (_, length) = decode(rt.alloc(), bytes).map_err(|_| Trouble::Document)?;
    if length != bytes.len() {
        return Err(Trouble::Document);
    }
    quickest(rt, rounds, |_| decode_once(rt.alloc(), bytes))
}

/// How long the document of these bytes takes to be written.
fn time_encoding(rt: &HostRuntime, rounds: u32, bytes: &[u8]) -> Result<u64, Trouble>
    requires { rounds ≢ 0 }
{
    let (document, _) = decode(rt.alloc(), bytes).map_err(|_| Trouble::Document)?;
    quickest(rt, rounds, |_| encode_once(rt.alloc(), &document))
}

/// The file, and how many rounds, at least one.
fn parsed(words: &mut Args) -> Option<(String, u32)>
    ensures { IfSome result (λ w. w.1 ≢ 0) }
{
    let file = words.next()?;
    let rounds = rounds(words)?;
    Some((file, rounds))
}

/// Reads the document; None where it was not read.
fn decode_once(alloc: Global, bytes: &[u8]) -> Option<()> {
    let _ = decode(alloc, bytes).ok()?;
    Some(())
}

/// Writes the document; None where it was not written.
fn encode_once(alloc: Global, document: &Document) -> Option<()> {
    let _ = encode(alloc, document).ok()?;
    Some(())
}
