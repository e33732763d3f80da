//! A request and its answer, and the limit of time.

use super::{REPLY, script};
use crate::pieces_net::PiecesNet;
use bson_doc::Bytes;
use desk_wire::{Exchanged, Wire, exchange};
use msg_wire::MsgFault;
use net_link::{Clock, Dialed, Net, NetEvent, TickClock};
use std::alloc::Global;
use std::sync::Wait;
use std::test::Fail;

/// How an exchange ended.
#[derive(Clone, Copy, Debug, PartialEq, Eq)]
enum How {
    Whole { id: i32 },
    End,
    Fault,
    Bad(MsgFault),
    Memory,
    Late { moment: u64 },
}

/// Sends a request on a new stream of the net, and takes the answer.
fn trade<R: Wait, N: Net, C: Clock>(
    rt: &R,
    alloc: Global,
    net: &mut N,
    clock: &C,
    limit: u64,
) -> Result<How, Fail> {
    let Dialed::Stream(stream) = net.dial("peer") else {
        return Err(Fail::from("no stream"));
    };
    let mut wire = Wire::new(alloc, stream);
    wire.queue(Bytes::take(alloc, b"request")?);
    Ok(match exchange(rt, alloc, net, &mut wire, clock, limit) {
        Exchanged::Whole(message) => How::Whole { id: message.id },
        Exchanged::End => How::End,
        Exchanged::Fault => How::Fault,
        Exchanged::Bad(fault) => How::Bad(fault),
        Exchanged::Memory => How::Memory,
        Exchanged::Late { moment } => How::Late { moment },
    })
}

/// A net of two pieces.
fn pieces(alloc: Global, bytes: &[u8], cut: usize, room: usize) -> PiecesNet<'_> {
    PiecesNet {
        dialled: 0,
        bytes,
        cut,
        given: 0,
        waited: false,
        asked: 0,
        room,
        out: Vec::new(alloc),
    }
}

#[test]
fn an_answer_comes(rt: HostRuntime) -> Result<(), Fail> {
    let alloc = rt.alloc();
    for cut in [0, 1, 15, 16, 17, 44, 45] {
        for room in [0, 1, 6, 7, 8] {
            let mut net = pieces(alloc, REPLY, cut, room);
            let clock = TickClock::new(0, 1);
            let how = trade(&rt, alloc, &mut net, &clock, 1_000_000)?;
            assert_eq!(rt; how, How::Whole { id: 7 }, "{cut} {room}");
            assert_eq!(rt; net.out.as_slice(), b"request".as_slice(), "{cut} {room}");
        }
    }
    Ok(())
}

/// The dial is the first call, the write the second, and the reads the third and fourth.
#[test]
fn a_stream_ends_fails_or_brings_no_message(rt: HostRuntime) -> Result<(), Fail> {
    let alloc = rt.alloc();
    let clock = TickClock::new(0, 1);
    let rows: [(&[u8], bool, u64, How); 6] = [
        (REPLY, true, 0, How::Whole { id: 7 }),
        (b"", true, 0, How::End),
        (b"\x2d\0\0\0\x07", true, 0, How::End),
        (REPLY, false, 2, How::Fault),
        (REPLY, false, 4, How::Fault),
        (
            b"\x19\0\0\0\x07\0\0\0\x01\0\0\0\xdd\x07\0\0",
            false,
            0,
            How::Bad(MsgFault::Length { got: 25 }),
        ),
    ];
    for (bytes, ends, fails, expected) in rows {
        let mut net = script(alloc, bytes, 4096, ends, fails)?;
        assert_eq!(rt;
            trade(&rt, alloc, &mut net, &clock, 1_000_000)?,
            expected,
            "{fails}"
        );
    }
    Ok(())
}

/// The clock adds 1 at each look, and 1,000 at each rest: it shows 10, 1,011, 2,012 and so on.
#[test]
fn the_limit_of_time(rt: HostRuntime) -> Result<(), Fail> {
    let alloc = rt.alloc();
    for (limit, moment) in [(0, 10), (10, 10), (11, 1011), (1011, 1011), (1012, 2012)] {
        let clock = TickClock::new(10, 1);
        let mut net = script(alloc, b"", 4096, false, 0)?;
        let how = trade(&rt, alloc, &mut net, &clock, limit)?;
        assert_eq!(rt; how, How::Late { moment }, "{limit}");
    }
    Ok(())
}

/// The net is full at the first turn, when the clock shows 10.
#[test]
fn a_request_that_is_not_taken_is_late(rt: HostRuntime) -> Result<(), Fail> {
    let alloc = rt.alloc();
    let clock = TickClock::new(10, 1);
    let mut net = pieces(alloc, REPLY, 0, 3);
    let how = trade(&rt, alloc, &mut net, &clock, 5)?;
    assert_eq!(rt; how, How::Late { moment: 10 });
    assert_eq!(rt; net.out.as_slice(), b"req".as_slice());
    Ok(())
}

#[test]
fn a_whole_message_wins_over_the_limit(rt: HostRuntime) -> Result<(), Fail> {
    let alloc = rt.alloc();
    let clock = TickClock::new(10, 1);
    let mut net = script(alloc, REPLY, 1, false, 0)?;
    let how = trade(&rt, alloc, &mut net, &clock, 0)?;
    assert_eq!(rt; how, How::Whole { id: 7 });
    Ok(())
}

#[test]
fn the_greatest_moment_is_no_limit(rt: HostRuntime) -> Result<(), Fail> {
    let alloc = rt.alloc();
    let clock = TickClock::new(u64::MAX, 1);
    let mut net = pieces(alloc, REPLY, 20, 3);
    let how = trade(&rt, alloc, &mut net, &clock, u64::MAX)?;
    assert_eq!(rt; how, How::Whole { id: 7 });
    Ok(())
}

#[test]
fn all_goes_out_before_anything_is_read(rt: HostRuntime) -> Result<(), Fail> {
    let alloc = rt.alloc();
    let clock = TickClock::new(0, 1);
    let mut net = script(alloc, REPLY, 4096, false, 0)?;
    let how = trade(&rt, alloc, &mut net, &clock, 1)?;
    assert_eq!(rt; how, How::Whole { id: 7 });
    let mut seen = Vec::new(alloc);
    for event in net.events() {
        let told = match event {
            NetEvent::Dialled { .. } => "dialled",
            NetEvent::Out { bytes, .. } if bytes.as_slice() == b"request".as_slice() => "out",
            NetEvent::Came { .. } => "came",
            _ => "other",
        };
        seen.push(told)?;
    }
    assert_eq!(rt;
        seen.as_slice(),
        ["dialled", "out", "came", "came"].as_slice()
    );
    Ok(())
}
