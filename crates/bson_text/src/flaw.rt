//! What stops a walk through a JSON value.

ghost use Rattle.std.specs.Prelude.{◌≡◌, ◌∷◌, ◌++◌, Some, None, IfOk};
ghost use Rattle.bson_text.specs.Flaws.{under, here, joined};
ghost use Rattle.bson_text.specs.Reading.{fault_of};

use crate::{Memory, TextFault};
use bson_doc::Text;
use std::alloc::Global;

/// Why a part of the value has no place in a document.
#[derive(Clone, Copy, Debug, PartialEq, Eq)]
pub enum FlawKind {
    /// A number is held as a float.
    Fraction,
    /// An integer is greater than i64's greatest.
    TooBig,
    /// A name has a zero byte.
    Nul,
    /// An array or object lies too deep.
    Deep,
}

/// A flaw, and the path to it from the value that was walked; None where the value itself has it.
#[derive(Debug, Drop)]
pub struct Flaw {
    pub kind: FlawKind,
    pub path: Option<Text>,
}

/// Why a walk ended early.
#[derive(Debug, Drop)]
pub enum Stop {
    /// The first flaw.
    Flawed(Flaw),
    /// There is not enough memory.
    Memory,
}

impl Flaw {
    /// A flaw of the value itself.
    pub fn here(kind: FlawKind) -> Flaw
        ensures { result ≡ here kind }
    {
        Flaw { kind, path: None }
    }

    /// The flaw as it is told of what holds the value, at that name or place.
    pub fn under(self, alloc: Global, step: &str) -> Result<Flaw, Memory>
        ensures { IfOk result (λ f. f ≡ under step.now self) }
    {
        let Flaw { kind, path } = self;
        let path = joined_path(alloc, step, path)?;
        Ok(Flaw {
            kind,
            path: Some(path),
        })
    }

    /// The fault that tells the flaw.
    pub fn into_fault(self, alloc: Global) -> TextFault
        ensures { result ≡ fault_of self }
    {
        let Flaw { kind, path } = self;
        let path = path.unwrap_or(Text::new(alloc));
        match kind {
            FlawKind::Fraction => TextFault::Fraction { path },
            FlawKind::TooBig => TextFault::TooBig { path },
            FlawKind::Nul => TextFault::Nul { path },
            FlawKind::Deep => TextFault::Deep { path },
        }
    }
}

/// The step, and where there is a path, a point and the path behind it.
fn joined_path(alloc: Global, step: &str, path: Option<Text>) -> Result<Text, Memory>
    ensures { IfOk result (λ t. t ≡ joined step.now path) }
{
    let Some(path) = path else {
        return Text::take(alloc, step);
    };
    let mut whole = String::from_str(alloc, step)?;
    whole.push_str(".")?;
    whole.push_str(path.as_str())?;
    Text::take(alloc, whole.as_str())
}
