ghost use Rattle.std.specs.Prelude.{◌≡◌, [], ◌++◌, length, encode_utf8, string_bytes, IfOk, OnOk, OnErr, IsUtf8};

use crate::Memory;
use std::alloc::Global;
use std::marker::Model;

/// A text in UTF-8 that contracts see as the list of its bytes.
#[derive(Debug, Drop)]
pub struct Text {
    text: String,
}

impl Model for Text {
    ghost use Rattle.std.specs.Prelude.{List, ℕ, string_bytes};

    ghost Value = { List ℕ };

    ghost view = { λ t. string_bytes t.text };
}

impl Text {
    /// The empty text, which takes no memory.
    pub fn new(alloc: Global) -> Text
        ensures empty { result ≡ [] }
    {
        Text {
            text: String::new(alloc),
        }
    }

    /// The text of a `String`, with its memory.
    pub fn from_string(text: String) -> Text
        ensures value { result ≡ string_bytes text }
    {
        Text { text }
    }

    /// A copy of the text.
    pub fn take(alloc: Global, text: &str) -> Result<Text, Memory>
        ensures value { IfOk result (λ t. t ≡ text.now) }
    {
        let text = String::from_str(alloc, text)?;
        Ok(Text { text })
    }

    /// An equal text.
    pub fn copy(&self, alloc: Global) -> Result<Text, Memory>
        ensures equal { IfOk result (λ t. t ≡ self.now) }
    {
        Text::take(alloc, self.as_str())
    }

    /// Appends a character.
    pub fn push(&mut self, item: char) -> Result<(), Memory>
        ensures ok { OnOk result (self.new ≡ self.old ++ encode_utf8 item) }
        ensures err { OnErr result (self.new ≡ self.old) }
    {
        self.text.push(item)
    }

    /// How many bytes it has.
    pub fn len(&self) -> usize
        ensures count { result ≡ length self.now }
    {
        self.text.len()
    }

    /// The text.
    pub fn as_str(&self) -> &str
        ensures value { result.now ≡ self.now }
        ensures utf8 { IsUtf8 result.now }
    {
        self.text.as_str()
    }
}
