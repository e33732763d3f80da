ghost use Rattle.std.specs.Prelude.{◌≡◌};
ghost use Rattle.bson_doc.specs.Documents.{is_one as one};

use crate::{Bytes, Name, Oid, Rows, Text};

/// A value of a document (bsonspec 1.1, element).
///
/// A double is kept as its eight bytes and a decimal number as its sixteen, and no arithmetic is done on them.
#[cycle(document)]
#[derive(Debug, Drop)]
pub enum Value {
    /// A 64-bit floating-point number, as its eight bytes with the lowest first.
    Double([u8; 8]),
    /// A text.
    Str(Text),
    /// A document that lies inside.
    Doc(Document),
    /// A list of values; its spelling numbers them "0", "1" and so on.
    Array(Rows<Value>),
    /// Bytes, and a subtype that says what they stand for (4 for a UUID).
    Binary {
        /// What the bytes stand for; any subtype is kept as it is.
        subtype: u8,
        /// The bytes.
        bytes: Bytes,
    },
    /// The undefined value, which the standard calls deprecated.
    Undefined,
    /// An ObjectId.
    Oid(Oid),
    /// A truth value.
    Bool(bool),
    /// A UTC datetime, in milliseconds since the Unix epoch.
    Date(i64),
    /// The null value.
    Null,
    /// A regular expression.
    Regex {
        /// The pattern.
        pattern: Name,
        /// The options, one letter each; the standard wants them in alphabetical order, and they are kept as they are.
        options: Name,
    },
    /// A pointer into a collection, which the standard calls deprecated.
    DbPointer {
        /// The name of the collection with its database.
        space: Text,
        /// Which document of it.
        oid: Oid,
    },
    /// JavaScript code.
    Code(Text),
    /// A symbol, which the standard calls deprecated.
    Symbol(Text),
    /// JavaScript code with the values of its names, which the standard calls deprecated.
    Scope {
        /// The code.
        code: Text,
        /// The values of its names.
        scope: Document,
    },
    /// A signed number of 32 bits.
    Int32(i32),
    /// A timestamp: seconds in the high half, an increment in the low one.
    Stamp(u64),
    /// A signed number of 64 bits.
    Int64(i64),
    /// A decimal number of 128 bits (IEEE 754-2008, decimal128), as its sixteen bytes with the lowest first.
    Decimal([u8; 16]),
    /// The value that compares below all others.
    Min,
    /// The value that compares above all others.
    Max,
}

/// A document: its elements in order (bsonspec 1.1, document). Names may repeat.
#[cycle(document)]
#[derive(Debug, Drop)]
pub struct Document {
    /// The pairs of name and value.
    pub elements: Rows<(Name, Value)>,
}

/// Whether the value is the number one, as servers say `ok`: an int32 or int64 of 1 or the double 1.0.
pub fn is_one(value: &Value) -> bool
    ensures one { result ≡ one value.now }
{
    match value {
        Value::Int32(n) => *n == 1,
        Value::Int64(n) => *n == 1,
        Value::Double(raw) => *raw == ONE,
        _ => false,
    }
}

/// The bytes of the double 1.0 (IEEE 754).
const ONE: [u8; 8] = [0, 0, 0, 0, 0, 0, 0xf0, 0x3f];
