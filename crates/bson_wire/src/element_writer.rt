ghost use Rattle.std.specs.Prelude.{◌≡◌, ◌≤◌, ◌<◌, ◌+◌, ◌∷◌, [], drop, length, Err, IfErr, IfOk, OnOk};
ghost use Rattle.bson_doc.specs.Documents.{depth_of};
ghost use Rattle.bson_doc.specs.Names.{HasNoZero};
ghost use Rattle.bson_doc.specs.declared.kind.Kind.TheVariants as kinds;
ghost use Rattle.bson_doc.specs.declared.value.Value.{Doc};
ghost use Rattle.bson_doc.specs.declared.value.Value.TheVariants as value;
ghost use Rattle.bson_doc.specs.wire.Limits.{most_bytes, most_levels};
ghost use Rattle.bson_doc.specs.wire.Spelled.{binary, document, spelled, string};
ghost use Rattle.bson_wire.specs.Written.{Stops};
ghost use Rattle.bson_wire.specs.Writes.{Begins, BeginsFirst, Ends, Writes};

use crate::EncodeFault;
use crate::appending::append;
use crate::plain_put::{put_binary, put_int32, put_int64};
use crate::put::{end_document, put_byte, put_bytes, put_front, put_string};
use bson_doc::{Document, Kind, PlainKind};
use std::alloc::Global;
use std::marker::Model;
use std::mem;

/// Writes the elements of documents one behind another (bsonspec 1.1, e_list). Contracts see all bytes that are there.
///
/// Where a call fails, what is there then is not said.
#[derive(Debug, Drop)]
pub struct ElementWriter {
    alloc: Global,
    out: Vec<u8>,
}

impl Model for ElementWriter {
    ghost use Rattle.std.specs.Prelude.{ℕ, List};

    ghost Value = { List ℕ };

    ghost view = { λ w. w.out.items };
}

impl ElementWriter {
    /// A writer behind these bytes.
    pub fn new(alloc: Global, bytes: Vec<u8>) -> ElementWriter
        ensures { result ≡ bytes.items }
    {
        ElementWriter { alloc, out: bytes }
    }

    /// All bytes.
    pub fn into_bytes(self) -> Vec<u8>
        ensures { result.items ≡ self }
    {
        let ElementWriter { alloc: _, out } = self;
        out
    }

    /// A text (bsonspec 1.1, string).
    pub fn text(&mut self, name: &str, text: &str) -> Result<(), EncodeFault>
        requires name { HasNoZero name.now }
        ensures writes { OnOk result (Writes self.old self.new ((name.now, value.Str text.now) ∷ [])) }
        ensures long { IfErr result (Stops (length (string text.now))) }
    {
        put_front(&mut self.out, Kind::Plain(PlainKind::Str), name)?;
        put_string(&mut self.out, text)
    }

    /// A truth value (bsonspec 1.1, boolean).
    pub fn truth(&mut self, name: &str, truth: bool) -> Result<(), EncodeFault>
        requires name { HasNoZero name.now }
        ensures writes { OnOk result (Writes self.old self.new ((name.now, value.Bool truth) ∷ [])) }
        ensures err { IfErr result (λ e. e ≡ EncodeFault.Memory) }
    {
        put_front(&mut self.out, Kind::Plain(PlainKind::Bool), name)?;
        put_byte(&mut self.out, u8::from(truth))
    }

    /// A signed number of four bytes (bsonspec 1.1, int32).
    pub fn int32(&mut self, name: &str, n: i32) -> Result<(), EncodeFault>
        requires name { HasNoZero name.now }
        ensures writes { OnOk result (Writes self.old self.new ((name.now, value.Int32 n) ∷ [])) }
        ensures err { IfErr result (λ e. e ≡ EncodeFault.Memory) }
    {
        put_front(&mut self.out, Kind::Plain(PlainKind::Int32), name)?;
        put_int32(&mut self.out, &n)
    }

    /// A signed number of eight bytes (bsonspec 1.1, int64).
    pub fn int64(&mut self, name: &str, n: i64) -> Result<(), EncodeFault>
        requires name { HasNoZero name.now }
        ensures writes { OnOk result (Writes self.old self.new ((name.now, value.Int64 n) ∷ [])) }
        ensures err { IfErr result (λ e. e ≡ EncodeFault.Memory) }
    {
        put_front(&mut self.out, Kind::Plain(PlainKind::Int64), name)?;
        put_int64(&mut self.out, &n)
    }

    /// Bytes with a subtype (bsonspec 1.1, binary).
    pub fn binary(&mut self, name: &str, subtype: u8, bytes: &[u8]) -> Result<(), EncodeFault>
        requires name { HasNoZero name.now }
        ensures writes { OnOk result (Writes self.old self.new ((name.now, value.Binary subtype bytes.now) ∷ [])) }
        ensures long { IfErr result (Stops (length (binary subtype bytes.now))) }
    {
        put_front(&mut self.out, Kind::Plain(PlainKind::Binary), name)?;
        put_binary(&mut self.out, subtype, bytes)
    }

    /// A document that is in memory (bsonspec 1.1, document).
    pub fn document(&mut self, name: &str, doc: &Document) -> Result<(), EncodeFault>
        requires name { HasNoZero name.now }
        ensures writes { OnOk result (Writes self.old self.new ((name.now, Doc doc.now) ∷ [])) }
        ensures deep { IfErr result (λ e. e ≡ EncodeFault.Deep → most_levels < depth_of doc.now) }
        ensures long { IfErr result (λ e. e ≡ EncodeFault.Long → most_bytes < length (spelled doc.now)) }
    {
        put_front(&mut self.out, Kind::Doc, name)?;
        let bytes = mem::replace(&mut self.out, Vec::new(self.alloc));
        self.out = append(bytes, doc)?;
        Ok(())
    }

    /// Begins an outermost document: its elements are written next, and then its end. The place at which its total stands.
    pub fn begin(&mut self) -> Result<usize, EncodeFault>
        ensures begins { IfOk result (BeginsFirst self.old self.new) }
        ensures err { IfErr result (λ e. e ≡ EncodeFault.Memory) }
    {
        let start = self.out.len();
        put_bytes(&mut self.out, &[0; 4])?;
        Ok(start)
    }

    /// Begins a document: its elements are written next, and then its end. The place at which its total stands.
    pub fn begin_document(&mut self, name: &str) -> Result<usize, EncodeFault>
        requires name { HasNoZero name.now }
        ensures begins { IfOk result (Begins kinds.Doc name.now self.old self.new) }
        ensures err { IfErr result (λ e. e ≡ EncodeFault.Memory) }
    {
        self.begin_inside(Kind::Doc, name)
    }

    /// Begins an array: the elements of its document, whose names are "0", "1" and so on, are written next, and then its end.
    /// The place at which its total stands.
    pub fn begin_array(&mut self, name: &str) -> Result<usize, EncodeFault>
        requires name { HasNoZero name.now }
        ensures begins { IfOk result (Begins kinds.Array name.now self.old self.new) }
        ensures err { IfErr result (λ e. e ≡ EncodeFault.Memory) }
    {
        self.begin_inside(Kind::Array, name)
    }

    /// Begins what holds elements, of that kind. The place at which its total stands.
    fn begin_inside(&mut self, kind: Kind, name: &str) -> Result<usize, EncodeFault>
        requires name { HasNoZero name.now }
        ensures begins { IfOk result (Begins kind name.now self.old self.new) }
        ensures err { IfErr result (λ e. e ≡ EncodeFault.Memory) }
    {
        put_front(&mut self.out, kind, name)?;
        let start = self.out.len();
        put_bytes(&mut self.out, &[0; 4])?;
        Ok(start)
    }

    /// Ends the document or the array whose total stands at that place.
    pub fn end(&mut self, start: usize) -> Result<(), EncodeFault>
        requires begun { start + 4 ≤ length self.old }
        ensures ends { OnOk result (Ends start self.old self.new) }
        ensures long { IfErr result (Stops (length (document (drop (start + 4) self.old)))) }
    {
        end_document(&mut self.out, start)
    }
}
