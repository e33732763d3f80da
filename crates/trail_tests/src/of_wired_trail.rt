//! Streams over a net that follows a script. What is written comes in the stories of the crates above.
use crate::seeds::one_seed;
use bson_doc::{Bytes, Rows};
use desk_wire::Pulled;
use host_name::Host;
use net_link::{Dialed, ScriptNet, StreamPlan};
use std::alloc::Global;
use std::test::Fail;
use wired_trail::{Memory, StreamUse, WiredTrail};

/// So many streams on which nothing comes; the first one ends at once.
fn silent(alloc: Global, streams: u32) -> Result<Rows<StreamPlan>, Memory> {
    let mut plans = Rows::new(alloc);
    for number in 0..streams {
        plans.push(StreamPlan {
            bytes: Bytes::new(alloc),
            most: 1,
            ends: number == 0,
        })?;
    }
    Ok(plans)
}

/// A client of one seed over a net of such streams.
fn fresh(alloc: Global, streams: u32) -> Result<WiredTrail<ScriptNet>, Fail> {
    let seed = Host::parse(alloc, "a")?;
    let settings = one_seed(alloc, &seed)?;
    let plans = silent(alloc, streams)?;
    let net = ScriptNet::new(alloc, plans, Rows::new(alloc));
    Ok(WiredTrail::new(alloc, settings, Rows::new(alloc), 5, net))
}

/// Dials a stream, and takes a turn on it, on which no request waits for its answer.
fn dial_and_turn(
    wired: &mut WiredTrail<ScriptNet>,
    alloc: Global,
    is_for: StreamUse,
) -> Option<Pulled> {
    let Dialed::Stream(stream) = wired.dial(alloc, "a:1", is_for) else {
        return None;
    };
    Some(wired.turn(alloc, stream, 1))
}

/// Dials a stream, and closes it; whether it is in use then.
fn dial_and_close(
    wired: &mut WiredTrail<ScriptNet>,
    alloc: Global,
    is_for: StreamUse,
) -> Option<bool> {
    let Dialed::Stream(stream) = wired.dial(alloc, "a:1", is_for) else {
        return None;
    };
    wired.close(stream);
    Some(wired.use_of(stream).is_some())
}

/// How many of each it shows: seeds, commands, names, events, sessions, requests, steps.
fn counts(wired: &WiredTrail<ScriptNet>) -> [usize; 7] {
    [
        wired.settings().hosts.len(),
        wired.commands().len(),
        wired.names().len(),
        wired.events().len(),
        wired.sessions().len(),
        wired.requests().len(),
        wired.steps().len(),
    ]
}

/// What a client comes to on three streams, the first of which ends at once: what a turn on it finds, whether the second, which
/// is closed, is in use then, and what a turn on the third finds.
fn streams(
    wired: &mut WiredTrail<ScriptNet>,
    alloc: Global,
) -> (Option<Pulled>, Option<bool>, Option<Pulled>) {
    let ended = dial_and_turn(wired, alloc, StreamUse::Check { host: 0 });
    let shut = dial_and_close(wired, alloc, StreamUse::Conn { host: 0, conn: 1 });
    let dry = dial_and_turn(wired, alloc, StreamUse::Conn { host: 0, conn: 2 });
    (ended, shut, dry)
}

#[test]
fn streams_come_and_go(rt: HostRuntime) -> Result<(), Fail> {
    let mut wired = fresh(rt.alloc(), 3)?;
    let counted = counts(&wired);
    let (ended, shut, dry) = streams(&mut wired, rt.alloc());
    let are_dry = matches!(ended, Some(Pulled::Memory)) && matches!(dry, Some(Pulled::Memory));
    // nothing was read: three dials and three closes, two of them at the end
    let events = wired.finish().net.events().len();
    assert!(rt; counted == [1, 0, 0, 0, 0, 0, 0]);
    assert!(rt; are_dry && shut == Some(false));
    assert_eq!(rt; events, 6);
    Ok(())
}
