use crate::machine_clock::MachineClock;
use crate::socket_net::SocketNet;
use crate::socket_watch::SocketWatch;
use desk_share::{LANES, LaneClock, Waits};
use mio::net::TcpStream;
use net_link::{Came, Dialed, Net, Wrote};
use std::io::{Read, Write};
use std::net::TcpListener;
use std::sync::atomic::{AtomicU64, Ordering};
use std::test::Fail;
use std::thread;
use std::time::{Duration, Instant};

/// Two threads rest at a time, and events on one socket bring both back long before their rests' time.
#[test]
fn events_end_the_rests_of_all(rt: HostRuntime) -> Result<(), Fail> {
    let most = Duration::from_secs(40);
    let began = Instant::now(&rt)?;
    let listener = TcpListener::bind(&rt, "127.0.0.1:0")?;
    let mut socket = TcpStream::connect(&rt, listener.local_addr()?)?;
    let (peer, _) = listener.accept()?;
    let watch = SocketWatch::new(rt.alloc(), &rt);
    watch.watch(&mut socket);
    // The event that the connection stands.
    watch.rest(&rt, most);
    let ended = AtomicU64::new(0);
    let rest = || {
        watch.rest(&rt, most);
        ended.fetch_add(1, Ordering::SeqCst);
    };
    let rests = || {
        thread::join(&rt, &rest, &rest);
    };
    let events = || {
        // Until then both rest, if the machine is not too busy.
        thread::sleep(&rt, Duration::from_millis(300));
        for _ in 0..4000 {
            let _ = (&peer).write(b"x");
            thread::sleep(&rt, Duration::from_millis(5));
            if ended.load(Ordering::SeqCst) == 2 {
                break;
            }
        }
    };
    thread::join(&rt, rests, events);
    assert!(rt; began.elapsed(&rt)? < Duration::from_secs(30));
    Ok(())
}

/// A lane's rest sends what was kept for its connection, and ends with the answer.
#[test]
fn an_answer_ends_the_rest_of_its_lane(rt: HostRuntime) -> Result<(), Fail> {
    let most = 40_000_000;
    let began = Instant::now(&rt)?;
    let listener = TcpListener::bind(&rt, "127.0.0.1:0")?;
    let port = listener.local_addr()?.port();
    let watch = SocketWatch::new(rt.alloc(), &rt);
    let clock = MachineClock::new(&rt, &watch);
    let mut net = SocketNet::new(rt.alloc(), &rt, &watch);
    let address = format!(in rt.alloc(); "127.0.0.1:{port}")?;
    let Dialed::Stream(stream) = net.dial(address.as_str()) else {
        return Err(Fail::from("no stream"));
    };
    let (peer, _) = listener.accept()?;
    clock.note_step(1, Some(Waits::Stream));
    // The event that the connection stands.
    clock.rest_of(1, most);
    assert_eq!(rt; net.write(stream, b"request"), Wrote::Took(7));
    clock.note_step(1, Some(Waits::Stream));
    let rest = || clock.rest_of(1, most);
    let answer = || {
        let mut request = [0; 7];
        let _ = (&peer).read_exact(&mut request);
        let _ = (&peer).write(b"answer");
    };
    thread::join(&rt, rest, answer);
    assert!(rt; began.elapsed(&rt)? < Duration::from_secs(30));
    assert_eq!(rt; net.read(stream, &mut [0; 16]), Came::Got(6));
    Ok(())
}

/// The rest of a lane that is first in a line ends where its turn was taken, and it waits for something else.
#[test]
fn a_turn_that_was_taken_ends_the_rest_of_its_lane(rt: HostRuntime) -> Result<(), Fail> {
    let began = Instant::now(&rt)?;
    let watch = SocketWatch::new(rt.alloc(), &rt);
    let clock = MachineClock::new(&rt, &watch);
    let lane = LANES as u32;
    clock.note_step(lane, Some(Waits::Line { host: 2 }));
    let rest = || clock.rest_of(lane, 40_000_000);
    let change = || {
        // Until then it rests, if the machine is not too busy.
        thread::sleep(&rt, Duration::from_millis(100));
        clock.note_step(lane, None);
        clock.note_free();
    };
    thread::join(&rt, rest, change);
    assert!(rt; began.elapsed(&rt)? < Duration::from_secs(30));
    // The rest of one that is told to go on ends, too.
    clock.note_step(lane, Some(Waits::Line { host: 2 }));
    clock.note_line(lane);
    clock.rest_of(lane, 40_000_000);
    assert!(rt; began.elapsed(&rt)? < Duration::from_secs(30));
    Ok(())
}
