ghost use Rattle.std.specs.Prelude.{◌≡◌, ◌≢◌, ◌≤◌, ◌+◌, ℕ, List, ◌++◌, length, take, drop, Some, None, Ok, Err, IfOk, IfErr, OnOk, MatchResult};
ghost use Rattle.bson_doc.specs.declared.value.Document.{Document};
ghost use Rattle.bson_doc.specs.declared.bson_fault.BsonFault.{BsonFault};
ghost use Rattle.bson_doc.specs.wire.Limits.{most_bytes};
ghost use Rattle.bson_doc.specs.wire.Spelling.{Spells};
ghost use Rattle.bson_doc.specs.wire.Reading.{Gives, total_at, read, flaw};

use crate::BsonFault;
use crate::limits::{MOST_BYTES, MOST_LEVELS};
use crate::reading::body_of;
use bson_doc::Document;
use byteorder::{ByteOrder, LittleEndian};
use std::alloc::Global;

/// Reads the document at the front of the bytes, and gives its length. Bytes behind it do not matter
/// ([`no_look_ahead`](crate::laws::no_look_ahead)).
pub fn decode(alloc: Global, bytes: &[u8]) -> Result<(Document, usize), BsonFault>
    // What is read is spelled so.
    ensures found { IfOk result (λ x. (x.1 ≤ length bytes.now) × Spells (take x.1 bytes.now) x.0) }

    // What is spelled so is read, whatever follows, unless memory runs out.
    ensures only { (text more : List ℕ) (document : Document)
        → bytes.now ≡ text ++ more → Spells text document
        → MatchResult result (λ x. x ≡ (document, length text)) (λ e. e ≡ BsonFault.Memory) }

    // An Ok comes only where the bytes have no flaw, and a fault is the first one from the left.
    ensures sound { OnOk result (flaw bytes.now ≡ None) }
    ensures fault { IfErr result (λ e. e ≢ BsonFault.Memory → flaw bytes.now ≡ Some e) }

    // A total that is out of its range, or not there yet, is told whatever the memory.
    ensures front { (e : BsonFault) → total_at bytes.now ≡ Err e → result ≡ Err e }
{
    let (document, rest) = outermost(alloc, bytes)?;
    Ok((document, bytes.len() - rest.len()))
}

/// The outermost document, and the bytes behind it.
#[tactic(auto, unfolding(bson_doc::specs::wire::Reading::read))]
fn outermost(alloc: Global, bytes: &[u8]) -> Result<(Document, &[u8]), BsonFault>
    ensures gives { Gives (λ x. (x.0, x.1.now)) result (read bytes.now) }
    ensures front { (e : BsonFault) → total_at bytes.now ≡ Err e → result ≡ Err e }
    ensures rest { IfOk result (λ x. length x.1.now ≤ length bytes.now) }
{
    let (total, behind) = total_of(bytes)?;
    body_of(alloc, MOST_LEVELS - 1, 0, total, behind)
}

/// The total of the outermost document, and the bytes behind its field.
#[tactic(auto, unfolding(bson_doc::specs::wire::Reading::total_at))]
fn total_of(bytes: &[u8]) -> Result<(usize, &[u8]), BsonFault>
    ensures total { MatchResult result (λ x. total_at bytes.now ≡ Ok x.0) (λ e. total_at bytes.now ≡ Err e) }
    ensures least { IfOk result (λ x. 5 ≤ x.0) }
    ensures most { IfOk result (λ x. x.0 ≤ most_bytes) }
    ensures within { IfOk result (λ x. x.0 ≤ length x.1.now + 4) }
    ensures behind { IfOk result (λ x. x.1.now ≡ drop 4 bytes.now) }
{
    if bytes.len() < 4 {
        return Err(BsonFault::Short);
    }
    let (number, behind) = bytes.split_at(4);
    let total = LittleEndian::read_u32(number) as usize;
    if total < 5 || MOST_BYTES < total {
        return Err(BsonFault::Length { at: 0 });
    }
    if bytes.len() < total {
        return Err(BsonFault::Short);
    }
    Ok((total, behind))
}
