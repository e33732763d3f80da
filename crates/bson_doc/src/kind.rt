ghost use Rattle.std.specs.Prelude.{◌≡◌};
ghost use Rattle.bson_doc.specs.wire.Kinds.{byte_of, kind_of_byte};

/// The kind of a value (bsonspec 1.1, element).
#[derive(Clone, Copy, Debug, PartialEq, Eq)]
pub enum Kind {
    /// A document.
    Doc,
    /// An array, which is spelled as a document.
    Array,
    /// JavaScript code with the values of its names, which are a document.
    Scope,
    /// A value that holds no document.
    Plain(PlainKind),
}

/// The kind of a value that holds no document.
#[derive(Clone, Copy, Debug, PartialEq, Eq)]
pub enum PlainKind {
    /// A 64-bit floating-point number.
    Double,
    /// A text.
    Str,
    /// Bytes with a subtype.
    Binary,
    /// The undefined value.
    Undefined,
    /// An ObjectId.
    Oid,
    /// A truth value.
    Bool,
    /// A UTC datetime.
    Date,
    /// The null value.
    Null,
    /// A regular expression.
    Regex,
    /// A pointer into a collection.
    DbPointer,
    /// JavaScript code.
    Code,
    /// A symbol.
    Symbol,
    /// A signed number of 32 bits.
    Int32,
    /// A timestamp.
    Stamp,
    /// A signed number of 64 bits.
    Int64,
    /// A decimal number of 128 bits.
    Decimal,
    /// The value above all others.
    Max,
    /// The value below all others.
    Min,
}

impl Kind {
    /// The kind that has the type byte.
    pub fn of_byte(byte: u8) -> Option<Kind>
        ensures kind { result ≡ kind_of_byte byte }
    {
        match byte {
            0x01 => Some(Kind::Plain(PlainKind::Double)),
            0x02 => Some(Kind::Plain(PlainKind::Str)),
            0x03 => Some(Kind::Doc),
            0x04 => Some(Kind::Array),
            0x05 => Some(Kind::Plain(PlainKind::Binary)),
            0x06 => Some(Kind::Plain(PlainKind::Undefined)),
            0x07 => Some(Kind::Plain(PlainKind::Oid)),
            0x08 => Some(Kind::Plain(PlainKind::Bool)),
            0x09 => Some(Kind::Plain(PlainKind::Date)),
            0x0a => Some(Kind::Plain(PlainKind::Null)),
            0x0b => Some(Kind::Plain(PlainKind::Regex)),
            0x0c => Some(Kind::Plain(PlainKind::DbPointer)),
            0x0d => Some(Kind::Plain(PlainKind::Code)),
            0x0e => Some(Kind::Plain(PlainKind::Symbol)),
            0x0f => Some(Kind::Scope),
            0x10 => Some(Kind::Plain(PlainKind::Int32)),
            0x11 => Some(Kind::Plain(PlainKind::Stamp)),
            0x12 => Some(Kind::Plain(PlainKind::Int64)),
            0x13 => Some(Kind::Plain(PlainKind::Decimal)),
            0x7f => Some(Kind::Plain(PlainKind::Max)),
            0xff => Some(Kind::Plain(PlainKind::Min)),
            _ => None,
        }
    }

    /// The type byte of the kind.
    pub fn byte(self) -> u8
        ensures byte { result ≡ byte_of self }
    {
        match self {
            Kind::Plain(PlainKind::Double) => 0x01,
            Kind::Plain(PlainKind::Str) => 0x02,
            Kind::Doc => 0x03,
            Kind::Array => 0x04,
            Kind::Plain(PlainKind::Binary) => 0x05,
            Kind::Plain(PlainKind::Undefined) => 0x06,
            Kind::Plain(PlainKind::Oid) => 0x07,
            Kind::Plain(PlainKind::Bool) => 0x08,
            Kind::Plain(PlainKind::Date) => 0x09,
            Kind::Plain(PlainKind::Null) => 0x0a,
            Kind::Plain(PlainKind::Regex) => 0x0b,
            Kind::Plain(PlainKind::DbPointer) => 0x0c,
            Kind::Plain(PlainKind::Code) => 0x0d,
            Kind::Plain(PlainKind::Symbol) => 0x0e,
            Kind::Scope => 0x0f,
            Kind::Plain(PlainKind::Int32) => 0x10,
            Kind::Plain(PlainKind::Stamp) => 0x11,
            Kind::Plain(PlainKind::Int64) => 0x12,
            Kind::Plain(PlainKind::Decimal) => 0x13,
            Kind::Plain(PlainKind::Max) => 0x7f,
            Kind::Plain(PlainKind::Min) => 0xff,
        }
    }
}
