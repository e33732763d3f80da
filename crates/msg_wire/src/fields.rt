ghost use Rattle.std.specs.Prelude.{◌≡◌, ◌+◌, ◌≤◌, length, FitsSigned};
ghost use Rattle.std.specs.Int.{w32};
ghost use Rattle.msg_wire.specs.Fields.{number_at, signed_at};

use byteorder::{ByteOrder, LittleEndian};

/// The number in the four bytes at the place.
#[tactic(auto, unfolding(crate::specs::Fields::number_at))]
pub fn number(bytes: &[u8], place: usize) -> u32
    requires { place + 4 ≤ length bytes.now }
    ensures { result ≡ number_at place bytes.now }
{
    LittleEndian::read_u32(&bytes[place..])
}

/// The signed number in the four bytes at the place.
pub fn signed(bytes: &[u8], place: usize) -> i32
    requires { place + 4 ≤ length bytes.now }
    ensures value { result ≡ signed_at place bytes.now }
    ensures fits { FitsSigned w32 result }
{
    number(bytes, place).cast_signed()
}
