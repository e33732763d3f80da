//! What a wire takes of a message that is only promised, and the laws.

use crate::pieces_net::PiecesNet;
use desk_wire::{Pulled, Wire, laws};
use net_link::{Dialed, Net};
use std::test::Fail;

/// A header with a length of 48,000,000.
const PROMISE: &[u8] = b"\x00\x6c\xdc\x02\x07\0\0\0\x01\0\0\0\xdd\x07\0\0";

#[test]
fn a_promise_of_many_bytes_makes_it_hold_sixteen(rt: HostRuntime) -> Result<(), Fail> {
    let alloc = rt.alloc();
    let mut net = PiecesNet {
        dialled: 0,
        bytes: PROMISE,
        cut: 16,
        given: 0,
        waited: false,
        asked: 0,
        room: 0,
        out: Vec::new(alloc),
    };
    let Dialed::Stream(stream) = net.dial("peer") else {
        return Err(Fail::from("no stream"));
    };
    let mut wire = Wire::new(alloc, stream);
    let Pulled::NotYet = wire.pull(alloc, &mut net) else {
        return Err(Fail::from("a message"));
    };
    assert_eq!(rt; net.given, 16);
    assert!(rt; net.asked <= 4096);
    Ok(())
}

#[test]
fn the_laws(_rt: HostRuntime) {
    laws::pulls_in_order();
    laws::sends_in_order();
    laws::on_one_stream();
    laws::gains();
}
