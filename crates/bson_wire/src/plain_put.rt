//! Writing the values that hold no document.

ghost use Rattle.std.specs.Prelude.{◌≡◌, ◌≤◌, ◌<◌, ◌^◌, ◌++◌, length, OnOk, IfErr, FitsSigned};
ghost use Rattle.std.specs.Int.{w32, w64, cast_unsigned};
ghost use Rattle.byteorder.specs.Endian.{little_bytes};
ghost use Rattle.bson_doc.specs.wire.Limits.{most_bytes};
ghost use Rattle.bson_doc.specs.wire.Spelling.{IsName};
ghost use Rattle.bson_doc.specs.wire.Spelled.{number32, int64, string, binary, regex, payload};
ghost use Rattle.bson_wire.specs.Written.{Stops, PayloadSpells, IsPlain};

use crate::EncodeFault;
use crate::limits::MOST_BYTES;
use crate::put::{put_byte, put_bytes, put_number, put_string};
use bson_doc::{Kind, Name, Oid, PlainKind, Value};
use byteorder::{ByteOrder, LittleEndian};

/// The kind of a value.
#[tactic(auto, using(crate::proofs::Payloads::payloads))]
pub fn kind_of(value: &Value) -> Kind
    ensures { result ≡ (payload value.now).0 }
{
    match value {
        Value::Doc(_) => Kind::Doc,
        Value::Array(_) => Kind::Array,
        Value::Scope { .. } => Kind::Scope,
        Value::Double(_) => Kind::Plain(PlainKind::Double),
        Value::Str(_) => Kind::Plain(PlainKind::Str),
        Value::Binary { .. } => Kind::Plain(PlainKind::Binary),
        Value::Undefined => Kind::Plain(PlainKind::Undefined),
        Value::Oid(_) => Kind::Plain(PlainKind::Oid),
        Value::Bool(_) => Kind::Plain(PlainKind::Bool),
        Value::Date(_) => Kind::Plain(PlainKind::Date),
        Value::Null => Kind::Plain(PlainKind::Null),
        Value::Regex { .. } => Kind::Plain(PlainKind::Regex),
        Value::DbPointer { .. } => Kind::Plain(PlainKind::DbPointer),
        Value::Code(_) => Kind::Plain(PlainKind::Code),
        Value::Symbol(_) => Kind::Plain(PlainKind::Symbol),
        Value::Int32(_) => Kind::Plain(PlainKind::Int32),
        Value::Stamp(_) => Kind::Plain(PlainKind::Stamp),
        Value::Int64(_) => Kind::Plain(PlainKind::Int64),
        Value::Decimal(_) => Kind::Plain(PlainKind::Decimal),
        Value::Max => Kind::Plain(PlainKind::Max),
        Value::Min => Kind::Plain(PlainKind::Min),
    }
}

/// The payload of a value that holds no document.
pub fn put_plain(out: &mut Vec<u8>, value: &Value) -> Result<(), EncodeFault>
    requires { IsPlain value.now }
    ensures ok { OnOk result (out.new.items ≡ out.old.items ++ (payload value.now).1) }
    ensures long { IfErr result (Stops (length (payload value.now).1)) }
    ensures known { OnOk result (PayloadSpells value.now) }
{
    match value {
        Value::Double(raw) => put_double(out, raw),
        Value::Str(text) => put_string(out, text.as_str()),
        Value::Binary { subtype, bytes } => put_binary(out, *subtype, bytes.as_slice()),
        Value::Undefined => Ok(()),
        Value::Oid(id) => put_oid(out, id),
        Value::Bool(truth) => put_byte(out, u8::from(*truth)),
        Value::Date(n) => put_int64(out, n),
        Value::Null => Ok(()),
        Value::Regex { pattern, options } => put_regex(out, pattern, options),
        Value::DbPointer { space, oid } => put_pointer(out, space.as_str(), oid),
        Value::Code(text) => put_string(out, text.as_str()),
        Value::Symbol(text) => put_string(out, text.as_str()),
        Value::Int32(n) => put_int32(out, n),
        Value::Stamp(n) => put_stamp(out, n),
        Value::Int64(n) => put_int64(out, n),
        Value::Decimal(raw) => put_decimal(out, raw),
        Value::Max => Ok(()),
        Value::Min => Ok(()),
        Value::Doc(_) | Value::Array(_) | Value::Scope { .. } => unreachable!(),
    }
}

/// Eight bytes.
fn put_double(out: &mut Vec<u8>, raw: &[u8; 8]) -> Result<(), EncodeFault>
    ensures ok { OnOk result (out.new.items ≡ out.old.items ++ raw.now) }
    ensures err { IfErr result (λ e. e ≡ EncodeFault.Memory) }
    ensures eight { length raw.now ≡ 8 }
{
    put_bytes(out, raw)
}

/// Sixteen bytes.
fn put_decimal(out: &mut Vec<u8>, raw: &[u8; 16]) -> Result<(), EncodeFault>
    ensures ok { OnOk result (out.new.items ≡ out.old.items ++ raw.now) }
    ensures err { IfErr result (λ e. e ≡ EncodeFault.Memory) }
    ensures sixteen { length raw.now ≡ 16 }
{
    put_bytes(out, raw)
}

/// The twelve bytes of an ObjectId.
fn put_oid(out: &mut Vec<u8>, id: &Oid) -> Result<(), EncodeFault>
    ensures ok { OnOk result (out.new.items ≡ out.old.items ++ id.now.0) }
    ensures err { IfErr result (λ e. e ≡ EncodeFault.Memory) }
    ensures twelve { length id.now.0 ≡ 12 }
{
    put_bytes(out, &id.0)
}

/// A signed number of four bytes.
pub fn put_int32(out: &mut Vec<u8>, n: &i32) -> Result<(), EncodeFault>
    ensures ok { OnOk result (out.new.items ≡ out.old.items ++ number32 (cast_unsigned w32 n.now)) }
    ensures err { IfErr result (λ e. e ≡ EncodeFault.Memory) }
    ensures fits { FitsSigned w32 n.now }
{
    let mut number = [0; 4];
    LittleEndian::write_i32(&mut number, *n);
    put_bytes(out, &number)
}

/// A signed number of eight bytes.
pub fn put_int64(out: &mut Vec<u8>, n: &i64) -> Result<(), EncodeFault>
    ensures ok { OnOk result (out.new.items ≡ out.old.items ++ int64 n.now) }
    ensures err { IfErr result (λ e. e ≡ EncodeFault.Memory) }
    ensures fits { FitsSigned w64 n.now }
{
    let mut number = [0; 8];
    LittleEndian::write_i64(&mut number, *n);
    put_bytes(out, &number)
}

/// A timestamp.
fn put_stamp(out: &mut Vec<u8>, n: &u64) -> Result<(), EncodeFault>
    ensures ok { OnOk result (out.new.items ≡ out.old.items ++ little_bytes 8 n.now) }
    ensures err { IfErr result (λ e. e ≡ EncodeFault.Memory) }
    ensures fits { n.now < 2 ^ 64 }
{
    let mut number = [0; 8];
    LittleEndian::write_u64(&mut number, *n);
    put_bytes(out, &number)
}

/// How many bytes, the subtype, and the bytes.
pub fn put_binary(out: &mut Vec<u8>, subtype: u8, bytes: &[u8]) -> Result<(), EncodeFault>
    ensures ok { OnOk result (out.new.items ≡ out.old.items ++ binary subtype bytes.now) }
    ensures size { OnOk result (length (binary subtype bytes.now) ≤ most_bytes) }
    ensures long { IfErr result (Stops (length (binary subtype bytes.now))) }
{
    if bytes.len() > MOST_BYTES - 5 {
        return Err(EncodeFault::Long);
    }
    put_number(out, bytes.len() as u32)?;
    put_byte(out, subtype)?;
    put_bytes(out, bytes)
}

/// Two names, each with 00 behind.
fn put_regex(out: &mut Vec<u8>, pattern: &Name, options: &Name) -> Result<(), EncodeFault>
    ensures ok { OnOk result (out.new.items ≡ out.old.items ++ regex pattern.now options.now) }
    ensures err { IfErr result (λ e. e ≡ EncodeFault.Memory) }
    ensures first { OnOk result (IsName pattern.now) }
    ensures second { OnOk result (IsName options.now) }
{
    put_bytes(out, pattern.as_str().as_bytes())?;
    put_byte(out, 0)?;
    put_bytes(out, options.as_str().as_bytes())?;
    put_byte(out, 0)
}

/// A text and an ObjectId.
fn put_pointer(out: &mut Vec<u8>, space: &str, oid: &Oid) -> Result<(), EncodeFault>
    ensures ok { OnOk result (out.new.items ≡ out.old.items ++ (string space.now ++ oid.now.0)) }
    ensures size { OnOk result (length (string space.now) ≤ most_bytes) }
    ensures long { IfErr result (Stops (length (string space.now ++ oid.now.0))) }
    ensures twelve { OnOk result (length oid.now.0 ≡ 12) }
{
    put_string(out, space)?;
    put_oid(out, oid)
}
