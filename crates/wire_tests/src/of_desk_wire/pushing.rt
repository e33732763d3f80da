//! What is unsent, however little the net takes.

use super::{REPLY, script};
use crate::pieces_net::PiecesNet;
use bson_doc::Bytes;
use desk_wire::{Pushed, Wire};
use net_link::{Dialed, Net, NetEvent};
use std::alloc::Global;
use std::test::Fail;

#[test]
fn a_full_buffer_between_two_pieces(rt: HostRuntime) -> Result<(), Fail> {
    let alloc = rt.alloc();
    for room in 0..46 {
        let mut net = PiecesNet {
            dialled: 0,
            bytes: &[],
            cut: 0,
            given: 0,
            waited: false,
            asked: 0,
            room,
            out: Vec::new(alloc),
        };
        let Dialed::Stream(stream) = net.dial("peer") else {
            return Err(Fail::from("no stream"));
        };
        let mut wire = Wire::new(alloc, stream);
        assert_eq!(rt; wire.push(&mut net), Pushed::Done, "{room}");
        assert_eq!(rt; net.out.len(), 0, "{room}");
        wire.queue(Bytes::take(alloc, REPLY)?);
        let first = wire.push(&mut net);
        if room < 45 {
            assert_eq!(rt; first, Pushed::NotYet, "{room}");
            assert_eq!(rt;
                net.out.as_slice(),
                REPLY.get(..room).ok_or("a front")?,
                "{room}"
            );
            assert_eq!(rt; wire.push(&mut net), Pushed::Done, "{room}");
        } else {
            assert_eq!(rt; first, Pushed::Done, "{room}");
        }
        assert_eq!(rt; net.out.as_slice(), REPLY, "{room}");
    }
    Ok(())
}

/// The dial is the first call, and the write the second.
#[test]
fn a_stream_that_fails_at_a_write(rt: HostRuntime) -> Result<(), Fail> {
    let alloc = rt.alloc();
    let mut net = script(alloc, REPLY, 4096, false, 2)?;
    let Dialed::Stream(stream) = net.dial("peer") else {
        return Err(Fail::from("no stream"));
    };
    let mut wire = Wire::new(alloc, stream);
    wire.queue(Bytes::take(alloc, REPLY)?);
    assert_eq!(rt; wire.push(&mut net), Pushed::Fault);
    Ok(())
}

/// The bytes that went out, in order.
fn sent(alloc: Global, events: &[NetEvent]) -> Result<Vec<u8>, Fail> {
    let mut out = Vec::new(alloc);
    for event in events {
        if let NetEvent::Out { bytes, .. } = event {
            out.extend_from_slice(bytes.as_slice())?;
        }
    }
    Ok(out)
}

#[test]
fn what_was_queued_goes_out_once(rt: HostRuntime) -> Result<(), Fail> {
    let alloc = rt.alloc();
    let mut net = script(alloc, REPLY, 4096, false, 0)?;
    let Dialed::Stream(stream) = net.dial("peer") else {
        return Err(Fail::from("no stream"));
    };
    let mut wire = Wire::new(alloc, stream);
    wire.queue(Bytes::take(alloc, b"one")?);
    let Pushed::Done = wire.push(&mut net) else {
        return Err(Fail::from("not sent"));
    };
    let Pushed::Done = wire.push(&mut net) else {
        return Err(Fail::from("not sent"));
    };
    wire.queue(Bytes::take(alloc, b"two")?);
    let Pushed::Done = wire.push(&mut net) else {
        return Err(Fail::from("not sent"));
    };
    assert_eq!(rt; sent(alloc, net.events())?.as_slice(), b"onetwo".as_slice());
    Ok(())
}
