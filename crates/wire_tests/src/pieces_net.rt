ghost use Rattle.std.specs.Prelude.{◌<◌, []};
ghost use Rattle.net_link.specs.Causes.{count_of-below};

use net_link::{Came, Dialed, Net, Wrote};

/// A net that tells nothing, gives its bytes in two pieces with one wait between them, and whose out-buffer is full once.
#[derive(Drop)]
pub struct PiecesNet<'a> {
    /// How many streams were dialled.
    pub dialled: u64,
    /// What it gives.
    pub bytes: &'a [u8],
    /// Where the second piece begins.
    pub cut: usize,
    /// How much it gave.
    pub given: usize,
    /// Whether it waited between the pieces.
    pub waited: bool,
    /// The largest piece that a read asked for.
    pub asked: usize,
    /// How many bytes it takes before it is full once.
    pub room: usize,
    /// What it took.
    pub out: Vec<u8>,
}

impl Net for PiecesNet<'_> {
    ghost faults = { λ _. 0 };

    ghost is_open = { λ n t. t < n.dialled };

    ghost next = { λ n. n.dialled };

    ghost tells = { ⊥ };

    ghost history = { λ _. [] };

    ghost inbox = { λ _ _. [] };

    ghost has_ended = { λ _ _. ⊥ };

    ghost is_full = { λ _ _. ⊥ };

    ghost counts = { λ _. count_of-below 0 };

    ghost below = { λ _ _ given. given };

    fn dial(&mut self, _address: &str) -> Dialed {
        let stream = self.dialled;
        let Some(next) = stream.checked_add(1) else {
            return Dialed::Memory;
        };
        self.dialled = next;
        Dialed::Stream(stream)
    }

    fn write(&mut self, _stream: u64, bytes: &[u8]) -> Wrote {
        if self.room == 0 {
            self.room = usize::MAX;
            return Wrote::NotYet;
        }
        let count = self.room.min(bytes.len());
        let Ok(()) = self.out.extend_from_slice(&bytes[..count]) else {
            return Wrote::Memory;
        };
        self.room -= count;
        Wrote::Took(count)
    }

    fn read(&mut self, _stream: u64, into: &mut [u8]) -> Came {
        self.asked = self.asked.max(into.len());
        if self.given >= self.cut && !self.waited {
            self.waited = true;
            return Came::NotYet;
        }
        let piece = if self.waited {
            self.bytes.len()
        } else {
            self.cut.min(self.bytes.len())
        };
        if self.given >= piece {
            return Came::NotYet;
        }
        let left = &self.bytes[self.given..piece];
        let count = left.len().min(into.len());
        into[..count].copy_from_slice(&left[..count]);
        self.given += count;
        Came::Got(count)
    }

    fn close(&mut self, _stream: u64) {}
}
