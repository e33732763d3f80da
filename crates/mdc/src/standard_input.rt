ghost use Rattle.std.specs.Prelude.{[]};
ghost use Rattle.net_link.specs.Causes.{count_of, count_of-below};

use net_link::{Source, SourceCame};
use std::io::Read;

/// The standard input as a source. It tells no content.
#[derive(Drop)]
pub struct StandardInput<T: Read + Drop> {
    reader: T,
    faults: u64,
}

impl<T: Read + Drop> StandardInput<T> {
    pub fn new(reader: T) -> StandardInput<T> {
        StandardInput { reader, faults: 0 }
    }
}

impl<T: Read + Drop> Source for StandardInput<T> {
    ghost faults = { λ s. count_of s.faults };

    ghost tells = { ⊥ };

    ghost left = { λ _. [] };

    ghost counts = { λ s. count_of-below s.faults };

    fn read(&mut self, into: &mut [u8]) -> SourceCame {
        match self.reader.read(into) {
            Ok(0) => SourceCame::End,
            Ok(count) => SourceCame::Got(count),
            Err(_) => {
                self.faults = self.faults.saturating_add(1);
                SourceCame::Failed
            }
        }
    }
}
