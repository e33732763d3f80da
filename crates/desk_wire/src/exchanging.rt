ghost use Rattle.std.specs.Prelude.{◌≡◌, ◌<◌, ◌≤◌, ◌-◌, ◌^◌, false, IfSome};
ghost use Rattle.net_link.specs.Causes.{HasCause};
ghost use Rattle.net_link.specs.Keeps.{Keeps, all_but_inbox_of};
ghost use Rattle.desk_wire.specs.Pull.{pull_shuts};
ghost use Rattle.desk_wire.specs.Exchange.{Exchanges, IfLate, last_answer};

use crate::{Pulled, Wire};
use msg_wire::{Message, MsgFault};
use net_link::{Clock, Net};
use std::alloc::Global;
use std::sync::Wait;

/// How long to rest between two turns in which the net had nothing to take or give, in microseconds.
const REST_MICROS: u64 = 1_000;

/// The answer of [`exchange`].
#[derive(Debug, Drop)]
pub enum Exchanged {
    /// All was sent, and this is the next message.
    Whole(Message),
    /// The peer ended the stream before a message was there whole; the wire is shut.
    End,
    /// The stream failed; the wire is shut.
    Fault,
    /// What came is no message, for this fault of the bytes; the wire is shut.
    Bad(MsgFault),
    /// There was no memory for it; what came is held.
    Memory,
    /// The clock showed this moment, in microseconds, at or past the limit, and the net had no more to take or give.
    Late { moment: u64 },
}

/// Sends what is unsent on a wire, takes the next message, and rests between turns in which the net has nothing.
///
/// `limit` is a moment of the clock, in microseconds. The greatest moment that there is stands for no limit. A message
/// that is there whole is answered whatever the clock shows.
pub fn exchange<R: Wait, N: Net, C: Clock>(
    rt: &R,
    alloc: Global,
    net: &mut N,
    wire: &mut Wire,
    clock: &C,
    limit: u64,
) -> Exchanged
    requires live { wire.old.is_shut ≡ false }
    requires is_open { N.is_open net.old wire.old.stream }

    ensures kept { wire.new ≡ record wire.old { unsent = wire.new.unsent; held = wire.new.held; is_shut = pull_shuts (last_answer result) } }
    ensures trades { Exchanges N.tells wire.old wire.new (N.history net.old) (N.history net.new) (last_answer result) }
    ensures late { IfLate C.shows limit result }
    ensures cause { HasCause (N.faults net.old) (N.faults net.new) (result ≡ Exchanged.Fault) }

    ensures keeps { Keeps (all_but_inbox_of wire.old.stream) N.tells N.is_open N.next N.inbox N.has_ended net.old net.new }
{
    'exchanging: for _ in rt.forever() {
        match wire.turn(alloc, net) {
            Pulled::Whole(message) => return Exchanged::Whole(message),
            Pulled::NotYet => {
                if let Some(moment) = late_or_rest(clock, limit) {
                    return Exchanged::Late { moment };
                }
            }
            Pulled::End => return Exchanged::End,
            Pulled::Fault => return Exchanged::Fault,
            Pulled::Bad(fault) => return Exchanged::Bad(fault),
            Pulled::Memory => return Exchanged::Memory,
        }
    }
    unreachable!()
}

/// The moment, where it is at or past the limit; else rests.
fn late_or_rest<C: Clock>(clock: &C, limit: u64) -> Option<u64>
    ensures late { IfSome result (λ moment. limit ≤ moment) }
    ensures limited { IfSome result (λ moment. limit < 2 ^ 64 - 1) }
    ensures shown { IfSome result C.shows }
{
    let moment = clock.now();
    if limit < u64::MAX && moment >= limit {
        return Some(moment);
    }
    clock.rest(REST_MICROS);
    None
}
