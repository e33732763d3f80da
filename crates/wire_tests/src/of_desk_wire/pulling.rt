//! The next message, however the stream is cut.

ghost use Rattle.std.specs.Prelude.{◌≡◌, false};

use super::{REPLY, THREE, script};
use crate::pieces_net::PiecesNet;
use bson_doc::Rows;
use desk_wire::{Pulled, Wire};
use msg_wire::MsgFault;
use net_link::{Dialed, Net, NetEvent};
use std::alloc::Global;
use std::test::Fail;

/// Why a wire was shut, or had no memory.
#[derive(Clone, Copy, Debug, PartialEq, Eq)]
enum Stop {
    End,
    Fault,
    Bad(MsgFault),
    Memory,
}

/// What a number of pulls gave.
#[derive(Debug, Drop)]
struct Taken {
    /// The ids of the messages.
    ids: Rows<i32>,
    /// How often the next one was not there yet.
    waits: u32,
    /// What stopped it, if anything.
    stop: Option<Stop>,
}

impl Taken {
    /// Whether these are the ids; how often the next message was not there yet, and what stopped it.
    fn told(&self, ids: &[i32]) -> (bool, u32, Option<Stop>) {
        (self.ids.as_slice() == ids, self.waits, self.stop)
    }
}

/// Pulls five times, or until something stops it.
fn take_five<N: Net>(alloc: Global, net: &mut N, wire: &mut Wire) -> Result<Taken, Fail>
    requires live { wire.old.is_shut ≡ false }
    requires is_open { N.is_open net.old wire.old.stream }
{
    let mut ids = Rows::new(alloc);
    let mut waits = 0u32;
    'taking: for _ in 0..5 {
        let stop = match wire.pull(alloc, net) {
            Pulled::Whole(message) => {
                ids.push(message.id)?;
                continue;
            }
            Pulled::NotYet => {
                waits = waits.saturating_add(1);
                continue;
            }
            Pulled::End => Stop::End,
            Pulled::Fault => Stop::Fault,
            Pulled::Bad(fault) => Stop::Bad(fault),
            Pulled::Memory => Stop::Memory,
        };
        return Ok(Taken {
            ids,
            waits,
            stop: Some(stop),
        });
    }
    Ok(Taken {
        ids,
        waits,
        stop: None,
    })
}

/// The same on the one stream of a new net.
fn take_from<N: Net>(alloc: Global, net: &mut N) -> Result<Taken, Fail> {
    let Dialed::Stream(stream) = net.dial("peer") else {
        return Err(Fail::from("no stream"));
    };
    take_five(alloc, net, &mut Wire::new(alloc, stream))
}

#[test]
fn a_message_in_two_pieces(rt: HostRuntime) -> Result<(), Fail> {
    let alloc = rt.alloc();
    for cut in 0..46 {
        let mut net = PiecesNet {
            dialled: 0,
            bytes: REPLY,
            cut,
            given: 0,
            waited: false,
            asked: 0,
            room: 0,
            out: Vec::new(alloc),
        };
        let taken = take_from(alloc, &mut net)?;
        assert_eq!(rt;
            (taken.told([7].as_slice()), net.given),
            ((true, 4, None), 45),
            "{cut}"
        );
    }
    Ok(())
}

#[test]
fn a_message_in_pieces_of_any_size(rt: HostRuntime) -> Result<(), Fail> {
    let alloc = rt.alloc();
    for most in 1..46 {
        let taken = take_from(alloc, &mut script(alloc, REPLY, most, false, 0)?)?;
        assert_eq!(rt; taken.told([7].as_slice()), (true, 4, None), "{most}");
    }
    Ok(())
}

#[test]
fn three_messages_that_came_at_once(rt: HostRuntime) -> Result<(), Fail> {
    let alloc = rt.alloc();
    for most in [1, 2, 7, 4096] {
        let taken = take_from(alloc, &mut script(alloc, THREE, most, true, 0)?)?;
        assert_eq!(rt;
            taken.told([7, 8, 9].as_slice()),
            (true, 0, Some(Stop::End)),
            "{most}"
        );
    }
    Ok(())
}

/// How many bytes reads gave.
fn given(events: &[NetEvent]) -> usize {
    let mut given = 0usize;
    for event in events {
        if let NetEvent::Came { bytes, .. } = event {
            given = given.saturating_add(bytes.len());
        }
    }
    given
}

#[test]
fn no_byte_behind_a_message_is_read(rt: HostRuntime) -> Result<(), Fail> {
    let alloc = rt.alloc();
    let mut net = script(alloc, THREE, 4096, true, 0)?;
    let Dialed::Stream(stream) = net.dial("peer") else {
        return Err(Fail::from("no stream"));
    };
    let mut wire = Wire::new(alloc, stream);
    let Pulled::Whole(message) = wire.pull(alloc, &mut net) else {
        return Err(Fail::from("no message"));
    };
    let first = (message.id, message.length, given(net.events()));
    drop(message);
    let Pulled::Whole(message) = wire.pull(alloc, &mut net) else {
        return Err(Fail::from("no message"));
    };
    let second = (message.id, message.length, given(net.events()));
    assert_eq!(rt; first, (7, 45, 45));
    assert_eq!(rt; second, (8, 26, 71));
    Ok(())
}

#[test]
fn a_header_out_of_order_is_refused_at_its_sixteen_bytes(rt: HostRuntime) -> Result<(), Fail> {
    let alloc = rt.alloc();
    let rows: [(&[u8], MsgFault); 4] = [
        (
            b"\x19\0\0\0\x07\0\0\0\x01\0\0\0\xdd\x07\0\0",
            MsgFault::Length { got: 25 },
        ),
        (
            b"\x01\x6c\xdc\x02\x07\0\0\0\x01\0\0\0\xdd\x07\0\0",
            MsgFault::Length { got: 48_000_001 },
        ),
        (
            b"\xff\xff\xff\xff\x07\0\0\0\x01\0\0\0\xdd\x07\0\0",
            MsgFault::Length { got: -1 },
        ),
        (
            b"\x2d\0\0\0\x07\0\0\0\x01\0\0\0\xd4\x07\0\0",
            MsgFault::Opcode { got: 2004 },
        ),
    ];
    for (bytes, fault) in rows {
        for most in [1, 16] {
            let mut net = script(alloc, bytes, most, false, 0)?;
            let taken = take_from(alloc, &mut net)?;
            let came = (taken.told(&[]), given(net.events()));
            assert_eq!(rt; came, ((true, 0, Some(Stop::Bad(fault))), 16));
        }
    }
    Ok(())
}

#[test]
fn a_header_out_of_order_keeps_what_is_behind_it_unread(rt: HostRuntime) -> Result<(), Fail> {
    let alloc = rt.alloc();
    let bytes = b"\x19\0\0\0\x07\0\0\0\x01\0\0\0\xdd\x07\0\0 and much more than that";
    let mut net = script(alloc, bytes, 4096, false, 0)?;
    let taken = take_from(alloc, &mut net)?;
    assert_eq!(rt; taken.stop, Some(Stop::Bad(MsgFault::Length { got: 25 })));
    assert_eq!(rt; given(net.events()), 16);
    Ok(())
}

#[test]
fn a_stream_that_ends_after_each_byte(rt: HostRuntime) -> Result<(), Fail> {
    let alloc = rt.alloc();
    for count in 0..45 {
        let Some(front) = REPLY.get(..count) else {
            return Err(Fail::from("a front"));
        };
        let taken = take_from(alloc, &mut script(alloc, front, 4096, true, 0)?)?;
        assert_eq!(rt; taken.told(&[]), (true, 0, Some(Stop::End)), "{count}");
    }
    Ok(())
}

/// The dial is the first call; the second reads the header, and the third what is behind it.
#[test]
fn a_stream_that_fails_between_two_pieces(rt: HostRuntime) -> Result<(), Fail> {
    let alloc = rt.alloc();
    for (fails, came) in [(2, 0), (3, 16)] {
        let mut net = script(alloc, REPLY, 4096, false, fails)?;
        let taken = take_from(alloc, &mut net)?;
        let found = (taken.told(&[]), given(net.events()));
        assert_eq!(rt; found, ((true, 0, Some(Stop::Fault)), came));
    }
    Ok(())
}
