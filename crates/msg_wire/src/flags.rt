ghost use Rattle.std.specs.Prelude.{◌≡◌, ◌<◌};
ghost use Rattle.msg_wire.specs.Flags.{refused_bit, checksum_size};
ghost use Rattle.msg_wire.specs.Flags as spec;

use crate::limits::{CHECKSUM, CHECKSUM_PRESENT};

/// The lowest bit of flagBits that refuses a message.
pub fn refused_bit_of(flags: u32) -> Option<u32>
    ensures { result ≡ refused_bit flags }
{
    (2..16).find(|bit| is_set(flags, *bit))
}

/// How many bytes of a checksum end a message with these flagBits.
#[tactic(auto, unfolding(crate::specs::Flags::checksum_size))]
pub fn checksum_size_of(flags: u32) -> usize
    ensures { result ≡ checksum_size flags }
{
    if is_set(flags, CHECKSUM_PRESENT) {
        CHECKSUM
    } else {
        0
    }
}

/// Whether the bit is set.
fn is_set(flags: u32, bit: u32) -> bool
    requires { bit < 32 }
    ensures { result ≡ spec.is_set flags bit }
{
    (flags >> bit) & 1 == 1
}
