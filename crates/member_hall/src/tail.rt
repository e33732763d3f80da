ghost use Rattle.std.specs.Prelude.{◌≡◌, ◌≤◌, [], ◌++◌, drop, length, OnOk, OnErr};

use bson_doc::{Bytes, Memory};
use std::alloc::Global;
use std::marker::Model;

/// Bytes that are taken from the front and added behind. Contracts see those that are left.
#[derive(Debug, Drop)]
pub struct Tail {
    bytes: Vec<u8>,
    start: usize,
}

impl Model for Tail {
    ghost use Rattle.std.specs.Prelude.{◌≤◌, ℕ, List, drop, length};

    ghost Value = { List ℕ };

    ghost view = { λ t. drop t.start t.bytes.items };

    ghost invariant = { λ t. t.start ≤ length t.bytes.items };
}

impl Tail {
    /// No bytes.
    pub fn new(alloc: Global) -> Tail
        ensures { result ≡ [] }
    {
        Tail {
            bytes: Vec::new(alloc),
            start: 0,
        }
    }

    /// All of these bytes, with their memory.
    pub fn from_bytes(bytes: Bytes) -> Tail
        ensures { result ≡ bytes }
    {
        Tail {
            bytes: bytes.into_vec(),
            start: 0,
        }
    }

    /// What is left.
    pub fn as_slice(&self) -> &[u8]
        ensures { result.now ≡ self.now }
    {
        &self.bytes.as_slice()[self.start..]
    }

    /// Takes bytes from the front.
    pub fn skip(&mut self, count: usize)
        requires { count ≤ length self.old }
        ensures { self.new ≡ drop count self.old }
    {
        let left = self.bytes.len() - self.start;
        prove!(count <= left);
        self.start += count;
    }

    /// Takes all.
    pub fn clear(&mut self)
        ensures { self.new ≡ [] }
    {
        self.bytes.clear();
        self.start = 0;
    }

    /// Adds bytes behind.
    pub fn extend(&mut self, more: &[u8]) -> Result<(), Memory>
        ensures ok { OnOk result (self.new ≡ self.old ++ more.now) }
        ensures err { OnErr result (self.new ≡ self.old) }
    {
        self.bytes.extend_from_slice(more)?;
        Ok(())
    }
}
