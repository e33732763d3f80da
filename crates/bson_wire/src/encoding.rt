ghost use Rattle.std.specs.Prelude.{◌≡◌, ◌≤◌, ◌<◌, ℕ, List, ◌++◌, length, Ok, Err, IfOk, OnOk, IfErr};
ghost use Rattle.bson_doc.specs.Documents.{depth_of};
ghost use Rattle.bson_doc.specs.wire.Limits.{most_bytes, most_levels};
ghost use Rattle.bson_doc.specs.wire.Spelling.{Spells};
ghost use Rattle.bson_doc.specs.wire.Spelled.{spelled};
ghost use Rattle.bson_doc.specs.wire.Reading.{read};

use crate::EncodeFault;
use crate::limits::{MOST_BYTES, MOST_LEVELS};
use crate::sizes::size;
use crate::writing::put_document;
use bson_doc::{Bytes, Document};
use std::alloc::Global;

/// The spelling of the document in which the names of an array are "0", "1" and so on.
pub fn encode(alloc: Global, doc: &Document) -> Result<Bytes, EncodeFault>
    ensures ok { IfOk result (λ bytes. bytes ≡ spelled doc.now) }
    ensures spells { IfOk result (λ bytes. Spells bytes doc.now) }

    // What is written is read again, whatever follows.
    ensures again { IfOk result (λ bytes. (more : List ℕ) → read (bytes ++ more) ≡ Ok (doc.now, more)) }

    // Each fault comes exactly where the document has it, unless memory runs out.
    ensures fits { OnOk result ((depth_of doc.now ≤ most_levels) × (length (spelled doc.now) ≤ most_bytes)) }
    ensures deep { IfErr result (λ e. e ≡ EncodeFault.Deep → most_levels < depth_of doc.now) }
    // A document with too many levels is refused whatever the memory.
    ensures levels { most_levels < depth_of doc.now → result ≡ Err EncodeFault.Deep }
    ensures long { IfErr result
        (λ e. e ≡ EncodeFault.Long → (depth_of doc.now ≤ most_levels) × (most_bytes < length (spelled doc.now))) }
    // So is one with too many bytes.
    ensures size { depth_of doc.now ≤ most_levels → most_bytes < length (spelled doc.now)
        → result ≡ Err EncodeFault.Long }
{
    if doc.depth() > MOST_LEVELS {
        return Err(EncodeFault::Deep);
    }
    if size(doc) > MOST_BYTES as u64 {
        return Err(EncodeFault::Long);
    }
    let mut out = Vec::new(alloc);
    put_document(&mut out, doc)?;
    Ok(Bytes::from_vec(out))
}
