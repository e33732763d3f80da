ghost use Rattle.std.specs.Prelude.{◌≡◌, ◌≢◌, ℕ, position, ◌==◌, Some, Err, MatchResult, IfOk, IfErr, IsUtf8};
ghost use Rattle.bson_doc.specs.Names.{HasNoZero};

use crate::{Memory, Text};
use std::alloc::{AllocError, Global};
use std::marker::Model;
use thiserror::Error;

/// A text without a zero byte, as names of elements are (bsonspec 1.1, cstring).
#[derive(Debug, Drop)]
pub struct Name {
    text: Text,
}

impl Model for Name {
    ghost use Rattle.std.specs.Prelude.{List, ℕ};
    ghost use Rattle.bson_doc.specs.Names.{HasNoZero};

    ghost Value = { List ℕ };

    ghost view = { λ n. n.text };

    ghost invariant = { λ n. HasNoZero n.text };
}

/// A text that has a zero byte and so is no name.
#[derive(Clone, Copy, Debug, PartialEq, Eq, Error)]
#[error("a name has a zero byte at {at}")]
pub struct HasNul {
    /// The place of the first zero byte.
    pub at: usize,
}

/// Why a text was not taken as a name.
#[derive(Clone, Copy, Debug, PartialEq, Eq, Error)]
pub enum NameFault {
    /// It has a zero byte, and the first one is at the place.
    #[error("a name has a zero byte at {at}")]
    HasNul { at: usize },
    /// There is not enough memory.
    #[error("out of memory")]
    Memory,
}

impl From<AllocError> for NameFault {
    ghost use Rattle.bson_doc.specs.declared.name.NameFault.TheVariants.{Memory};

    ghost from_gives = { λ _ e. e ≡ Memory };

    fn from(_e: AllocError) -> NameFault {
        NameFault::Memory
    }
}

impl Name {
    /// The text as a name, refused exactly where it has a zero byte.
    pub fn new(text: Text) -> Result<Name, HasNul>
        ensures value { MatchResult result (λ n. (n ≡ text) × HasNoZero text) (λ e. position (λ b. b == 0) text ≡ Some e.at) }
    {
        match first_zero(text.as_str().as_bytes()) {
            Some(at) => Err(HasNul { at }),
            None => Ok(Name { text }),
        }
    }

    /// A copy of the text as a name. A text that has a zero byte is refused whatever the memory.
    pub fn from_str(alloc: Global, text: &str) -> Result<Name, NameFault>
        ensures value { IfOk result (λ n. (n ≡ text.now) × HasNoZero text.now) }
        ensures zero { (at : ℕ) → position (λ b. b == 0) text.now ≡ Some at → result ≡ Err (NameFault.HasNul at) }
        ensures fault { IfErr result (λ e. e ≢ NameFault.Memory
            → (at : ℕ) × (e ≡ NameFault.HasNul at) × (position (λ b. b == 0) text.now ≡ Some at)) }
    {
        if let Some(at) = first_zero(text.as_bytes()) {
            return Err(NameFault::HasNul { at });
        }
        let name = Name::take(alloc, text)?;
        Ok(name)
    }

    /// A copy of the text, which has no zero byte, as a name.
    pub fn take(alloc: Global, text: &str) -> Result<Name, Memory>
        requires no_zero { HasNoZero text.now }
        ensures value { IfOk result (λ n. n ≡ text.now) }
    {
        let text = Text::take(alloc, text)?;
        Ok(Name { text })
    }

    /// The name as a text, which has no zero byte.
    pub fn as_str(&self) -> &str
        ensures value { result.now ≡ self.now }
        ensures no_zero { HasNoZero result.now }
        ensures utf8 { IsUtf8 result.now }
    {
        self.text.as_str()
    }

    /// An equal name.
    pub fn copy(&self, alloc: Global) -> Result<Name, Memory>
        ensures equal { IfOk result (λ n. n ≡ self.now) }
    {
        Name::take(alloc, self.as_str())
    }
}

/// Where the first zero byte stands, None exactly where there is none.
pub fn first_zero(bytes: &[u8]) -> Option<usize>
    ensures first { result ≡ position (λ b. b == 0) bytes.now }
{
    bytes.iter().position(|b| *b == 0)
}
