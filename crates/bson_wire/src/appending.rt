ghost use Rattle.std.specs.Prelude.{◌≡◌, ◌≤◌, ◌<◌, ◌++◌, length, Err, IfOk, OnOk, IfErr};
ghost use Rattle.std.specs.List.{AllByRecursion};
ghost use Rattle.bson_doc.specs.Documents.{depth_of};
ghost use Rattle.bson_doc.specs.wire.Limits.{most_bytes, most_levels};
ghost use Rattle.bson_doc.specs.wire.Spelling.{Spells};
ghost use Rattle.bson_doc.specs.wire.Spelled.{spelled};
ghost use Rattle.bson_wire.specs.Written.{ElementSpells};

use crate::EncodeFault;
use crate::limits::MOST_LEVELS;
use crate::writing::put_document;
use bson_doc::Document;

/// The bytes, and behind them the spelling of the document in which the names of an array are "0", "1" and so on. They
/// are not copied where room was reserved for it, as many bytes as [`size`](crate::size) says.
pub fn append(bytes: Vec<u8>, doc: &Document) -> Result<Vec<u8>, EncodeFault>
    ensures ok { IfOk result (λ all. all.items ≡ bytes.items ++ spelled doc.now) }
    ensures spells { OnOk result (Spells (spelled doc.now) doc.now) }
    // So does each of its elements spell its value, wherever enough levels are left: what holds the document may be written, too.
    ensures known { OnOk result (AllByRecursion ElementSpells doc.now.elements) }

    // Each fault comes exactly where the document has it, unless memory runs out. A document with too many levels is
    // refused whatever the memory.
    ensures fits { OnOk result ((depth_of doc.now ≤ most_levels) × (length (spelled doc.now) ≤ most_bytes)) }
    ensures levels { most_levels < depth_of doc.now → result ≡ Err EncodeFault.Deep }
    ensures deep { IfErr result (λ e. e ≡ EncodeFault.Deep → most_levels < depth_of doc.now) }
    ensures long { IfErr result
        (λ e. e ≡ EncodeFault.Long
        → (depth_of doc.now ≤ most_levels) × (most_bytes < length (spelled doc.now))) }
{
    if doc.depth() > MOST_LEVELS {
        return Err(EncodeFault::Deep);
    }
    let mut all = bytes;
    put_document(&mut all, doc)?;
    Ok(all)
}
