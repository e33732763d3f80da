ghost use Rattle.std.specs.Prelude.{◌≡◌, ◌<◌, ◌≤◌, ◌++◌, ℕ, length, take, OnOk, OnErr};
ghost use Rattle.net_link.specs.Causes.{Rose};

use crate::{Sink, SinkTook};
use thiserror::Error;

/// A write that failed, where the sink's count of faults rose.
#[derive(Clone, Copy, Debug, PartialEq, Eq, Error)]
#[error("a write failed")]
pub struct SinkFault;

/// Writes all the bytes. It ends, since each write takes a byte or fails. At a fault a front of them was written.
pub fn write_all<K: Sink>(out: &mut K, bytes: &[u8]) -> Result<(), SinkFault>
    ensures later { K.faults out.old ≤ K.faults out.new }
    ensures cause { OnErr result (Rose (K.faults out.old) (K.faults out.new)) }
    ensures ok { K.tells → OnOk result (K.written out.new ≡ K.written out.old ++ bytes.now) }
    ensures err { K.tells → OnErr result ((n : ℕ) × (n < length bytes.now) × (K.written out.new ≡ K.written out.old ++ take n bytes.now)) }
{
    let mut sent = 0;
    'writing: while sent < bytes.len() {
        match out.write(&bytes[sent..]) {
            SinkTook::Took(count) => sent += count,
            SinkTook::Failed => return Err(SinkFault),
        }
    }
    Ok(())
}
