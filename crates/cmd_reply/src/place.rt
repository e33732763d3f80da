ghost use Rattle.std.specs.Prelude.{◌≡◌};
ghost use Rattle.cmd_reply.specs.Results.{place_at};

use msg_wire::MsgFault;

/// The place of responseTo in a message.
pub const RESPONSE_TO: u32 = 8;

/// The place at which what came is no message.
pub fn place_of(fault: MsgFault) -> u32
    ensures { result ≡ place_at fault }
{
    fault.place().unwrap_or(0)
}
