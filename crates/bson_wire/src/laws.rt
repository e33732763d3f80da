//! Laws of the spelling, each the contract of a function that does nothing.

ghost use Rattle.std.specs.Prelude.{◌≡◌, ◌≢◌, ◌≤◌, ◌<◌, ◌↔◌, All, length, ℕ, List, [], ◌++◌, take, Some, None, Ok};
ghost use Rattle.bson_doc.specs.declared.value.Document.{Document};
ghost use Rattle.bson_doc.specs.wire.Limits.{most_bytes};
ghost use Rattle.bson_doc.specs.wire.Spelling.{Spells};
ghost use Rattle.bson_doc.specs.wire.Spelled.{spelled};
ghost use Rattle.bson_doc.specs.declared.bson_fault.BsonFault.{BsonFault};
ghost use Rattle.bson_doc.specs.wire.Reading.{read, flaw};
ghost use Rattle.bson_doc.specs.wire.Meaning.{Means};

use crate::BsonFault;

/// Bytes spell at most one document.
pub fn one_document()
    ensures { (bytes : List ℕ) (a b : Document) → Spells bytes a → Spells bytes b → a ≡ b }
{}

/// No spelling begins another one.
pub fn no_prefix()
    ensures { (bytes more : List ℕ) (a b : Document)
        → Spells bytes a → Spells (bytes ++ more) b → more ≡ [] }
{}

/// Bytes have no flaw exactly where they begin with a spelling.
pub fn flawless()
    ensures { (bytes : List ℕ)
        → flaw bytes ≡ None ↔ (n : ℕ) × (document : Document) × Spells (take n bytes) document }
{}

/// What is spelled so is read again, whatever follows.
pub fn read_again()
    ensures { (bytes more : List ℕ) (document : Document)
        → Spells bytes document → read (bytes ++ more) ≡ Ok (document, more) }
{}

/// What has a spelling has the one of `encode`, where that is not too long.
pub fn spelled_spells()
    ensures { (bytes : List ℕ) (document : Document)
        → All (λ b. b < 256) bytes → Spells bytes document → length (spelled document) ≤ most_bytes
        → Spells (spelled document) document }
{}

/// Where the bytes are enough for an answer, what follows them does not change it: a reader looks at no byte behind the
/// document.
pub fn no_look_ahead()
    ensures { (bytes more : List ℕ)
        → flaw bytes ≢ Some BsonFault.Short → flaw (bytes ++ more) ≡ flaw bytes }
{}

/// What a fault says: its place lies inside the bytes; the byte at `Kind`'s place has no kind and is no 00; the byte at
/// `Bool`'s place is neither 0 nor 1; `Short` comes where fewer bytes are there than four, or than the total counts; and
/// no reading meets want of memory.
pub fn meaning()
    ensures { (bytes : List ℕ) (e : BsonFault) → flaw bytes ≡ Some e → Means bytes e }
{}
