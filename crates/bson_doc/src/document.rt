ghost use Rattle.std.specs.Prelude.{◌≡◌, [], ◌∷◌, ◌++◌, OnOk, OnErr, slice_get};
ghost use Rattle.std.specs.Option.{option_copied, option_map};
ghost use Rattle.bson_doc.specs.Documents.{value_of};
ghost use Rattle.bson_doc.specs.Names.{HasNoZero};

use crate::{Document, Memory, Name, Rows, Value};
use std::alloc::Global;

impl Document {
    /// The empty document, which takes no memory.
    pub fn new(alloc: Global) -> Document
        ensures empty { result.elements ≡ [] }
    {
        Document {
            elements: Rows::new(alloc),
        }
    }

    /// Appends a pair of name and value.
    pub fn push(&mut self, name: Name, value: Value) -> Result<(), Memory>
        ensures ok { OnOk result (self.new.elements ≡ self.old.elements ++ (name, value) ∷ []) }
        ensures err { OnErr result (self.new ≡ self.old) }
    {
        self.elements.push((name, value))
    }

    /// Appends a pair of a copy of the name, which has no zero byte, and the value.
    pub fn put(&mut self, alloc: Global, name: &str, value: Value) -> Result<(), Memory>
        requires no_zero { HasNoZero name.now }
        ensures ok { OnOk result (self.new.elements ≡ self.old.elements ++ (name.now, value) ∷ []) }
        ensures err { OnErr result (self.new ≡ self.old) }
    {
        let name = Name::take(alloc, name)?;
        self.push(name, value)
    }

    /// The first value of that name, None exactly where there is none.
    pub fn get(&self, name: &str) -> Option<&Value>
        ensures first { option_copied result ≡ value_of name.now self.now.elements }
    {
        let found = self
            .elements
            .as_slice()
            .iter()
            .find(|e| e.0.as_str() == name)?;
        Some(&found.1)
    }

    /// The pair at that place, counted from 0, None exactly where the document has no such place.
    pub fn at(&self, place: usize) -> Option<(&Name, &Value)>
        ensures pair { option_map (λ e. (e.0.now, e.1.now)) result ≡ slice_get self.now.elements place }
    {
        let found = self.elements.as_slice().get(place)?;
        Some((&found.0, &found.1))
    }
}
