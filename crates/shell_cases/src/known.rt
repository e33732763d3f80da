use bson_doc::Bytes;
use case_files::{CaseFault, Memory, push_hex};
use std::alloc::Global;

/// Bytes that have names.
#[derive(Drop)]
pub struct Known {
    all: Vec<Named>,
}

/// Bytes and their name.
#[derive(Drop)]
struct Named {
    name: String,
    bytes: Vec<u8>,
}

impl Known {
    pub fn new(alloc: Global) -> Known {
        Known {
            all: Vec::new(alloc),
        }
    }

    /// Puts bytes behind those of a name, and answers how many there are then.
    pub fn add(&mut self, alloc: Global, name: &str, more: &[u8]) -> Result<usize, Memory> {
        for named in self.all.iter_mut() {
            if named.name.as_str() == name {
                named.bytes.extend_from_slice(more)?;
                return Ok(named.bytes.len());
            }
        }
        let named = Named {
            name: String::from_str(alloc, name)?,
            bytes: Vec::from_slice(alloc, more)?,
        };
        self.all.push(named)?;
        Ok(more.len())
    }

    /// A copy of the bytes of a name.
    pub fn find(&self, alloc: Global, name: &str) -> Result<Bytes, CaseFault> {
        for named in self.all.iter() {
            if named.name.as_str() == name {
                return Ok(Bytes::take(alloc, named.bytes.as_slice())?);
            }
        }
        Err(CaseFault::form(alloc, name))
    }

    /// Appends the name of the bytes, `-` where there are none, or else the bytes in hexadecimal.
    pub fn push_name(&self, line: &mut String, bytes: &[u8]) -> Result<(), Memory> {
        if bytes.is_empty() {
            return line.push_str("-");
        }
        for named in self.all.iter() {
            if named.bytes.as_slice() == bytes {
                return line.push_str(named.name.as_str());
            }
        }
        push_hex(line, bytes)
    }
}
