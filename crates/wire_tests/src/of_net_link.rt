//! What stands in memory: each on its happy path, and at the calls at which it is to fail.
use bson_doc::{Buffer, Bytes, Rows};
use net_link::{
    Came, Clock, Dialed, Dice, EventLog, Gate, ListDice, Net, NetEvent, OpenGate, Phase, ScriptNet,
    Sink, SinkFault, SinkTook, SliceSource, Source, SourceCame, StreamPlan, TickClock, VecSink,
    Wrote, laws, receive_some, send_some, write_all,
};
use std::alloc::{AllocError, Global};
use std::process::Abort;
use std::test::Fail;

fn numbers(alloc: Global, list: &[u64]) -> Result<Rows<u64>, AllocError> {
    Rows::take(alloc, list)
}

fn plan(alloc: Global, bytes: &[u8], most: u32, ends: bool) -> Result<StreamPlan, AllocError> {
    Ok(StreamPlan {
        bytes: Bytes::take(alloc, bytes)?,
        most,
        ends,
    })
}

fn name_of(event: &NetEvent) -> &'static str {
    match event {
        NetEvent::Dialled { .. } => "dialled",
        NetEvent::NoDial { .. } => "no dial",
        NetEvent::Out { .. } => "out",
        NetEvent::Came { .. } => "came",
        NetEvent::Ended { .. } => "ended",
        NetEvent::Fault { .. } => "fault",
        NetEvent::Closed { .. } => "closed",
        NetEvent::Dry { .. } => "dry",
        NetEvent::Full { .. } => "full",
        NetEvent::Handled { .. } => "handled",
        NetEvent::Elected { .. } => "elected",
        NetEvent::Followed { .. } => "followed",
    }
}

fn assert_events(rt: &impl Abort, events: &[NetEvent], names: &[&str]) {
    assert_eq!(rt; events.len(), names.len());
    for (event, name) in events.iter().zip(names) {
        assert_eq!(rt; name_of(event), *name);
    }
}

#[test]
fn source_gives_its_bytes_and_fails_at_its_call(rt: HostRuntime) -> Result<(), Fail> {
    let alloc = rt.alloc();
    let mut source = SliceSource::new(Bytes::take(alloc, &[1, 2, 3])?, numbers(alloc, &[2])?);
    let mut pieces = [[0; 2]; 4];
    let came = [
        source.read(&mut pieces[0]),
        source.read(&mut pieces[1]),
        source.read(&mut pieces[2]),
        source.read(&mut pieces[3]),
    ];
    drop(source);
    assert!(rt;
        came == [
            SourceCame::Got(2),
            SourceCame::Failed,
            SourceCame::Got(1),
            SourceCame::End,
        ]
    );
    assert!(rt; pieces == [[1, 2], [0, 0], [3, 0], [0, 0]]);
    Ok(())
}

#[test]
fn sink_takes_its_size_and_fails_at_its_call(rt: HostRuntime) -> Result<(), Fail> {
    let alloc = rt.alloc();
    let mut sink = VecSink::new(alloc, 5, numbers(alloc, &[2])?)?;
    let took = [
        sink.write(&[1, 2, 3]),
        sink.write(&[4]),
        sink.write(&[4, 5, 6]),
        sink.write(&[6]),
    ];
    assert!(rt;
        took == [
            SinkTook::Took(3),
            SinkTook::Failed,
            SinkTook::Took(2),
            SinkTook::Failed,
        ]
    );
    assert!(rt; sink.written() == [1, 2, 3, 4, 5].as_slice());
    Ok(())
}

#[test]
fn all_is_written_or_a_front_of_it(rt: HostRuntime) -> Result<(), Fail> {
    let alloc = rt.alloc();
    let mut sink = VecSink::new(alloc, 5, numbers(alloc, &[])?)?;
    let written = [
        write_all(&mut sink, &[1, 2, 3]),
        write_all(&mut sink, &[]),
        write_all(&mut sink, &[4, 5, 6]),
    ];
    assert!(rt; written == [Ok(()), Ok(()), Err(SinkFault)]);
    assert!(rt; sink.written() == [1, 2, 3, 4, 5].as_slice());
    Ok(())
}

#[test]
fn clock_goes_on_behind_each_look(rt: HostRuntime) {
    let clock = TickClock::new(5, 10);
    assert_eq!(rt; clock.now(), 5);
    assert_eq!(rt; clock.now(), 15);
    clock.rest(100);
    assert_eq!(rt; clock.now(), 125);
    let late = TickClock::new(u64::MAX - 1, 3);
    assert_eq!(rt; late.now(), u64::MAX - 1);
    assert_eq!(rt; late.now(), u64::MAX);
    late.rest(1);
    assert_eq!(rt; late.now(), u64::MAX);
}

#[test]
fn dice_repeat_their_words(rt: HostRuntime) -> Result<(), Fail> {
    let words = numbers(rt.alloc(), &[7, 9])?;
    assert_eq!(rt; words.len(), 2);
    let mut dice = ListDice::new(words);
    assert_eq!(rt; dice.word(), 7);
    assert_eq!(rt; dice.word(), 9);
    assert_eq!(rt; dice.word(), 7);
    Ok(())
}

#[test]
fn gate_is_open(_rt: HostRuntime) {
    OpenGate.pass(0, 0, Phase::Before);
    OpenGate.pass(0, 0, Phase::After);
}

#[test]
fn log_keeps_room(rt: HostRuntime) -> Result<(), Fail> {
    let mut log = EventLog::new(rt.alloc());
    log.keep(1)?;
    log.note(NetEvent::Dry { stream: 1 })?;
    log.note_kept(NetEvent::Closed { stream: 1 });
    assert_events(&rt, log.as_slice(), &["dry", "closed"]);
    Ok(())
}

/// A net whose streams give these bytes, so many at a read, and end or not; it fails at the calls of these numbers.
fn net_of(
    alloc: Global,
    streams: &[(&[u8], u32, bool)],
    fails: &[u64],
) -> Result<ScriptNet, AllocError> {
    let mut plans = Rows::new(alloc);
    push_plans(alloc, &mut plans, streams)?;
    Ok(ScriptNet::new(alloc, plans, numbers(alloc, fails)?))
}

fn push_plans(
    alloc: Global,
    plans: &mut Rows<StreamPlan>,
    streams: &[(&[u8], u32, bool)],
) -> Result<(), AllocError> {
    for (bytes, most, ends) in streams {
        plans.push(plan(alloc, bytes, *most, *ends)?)?;
    }
    Ok(())
}

#[test]
fn net_follows_its_plan(rt: HostRuntime) -> Result<(), Fail> {
    let mut net = net_of(rt.alloc(), &[(b"abcde", 2, true)], &[])?;
    let Dialed::Stream(stream) = net.dial("a:1") else {
        return Err(Fail::from("no stream"));
    };
    let took = net.write(stream, b"hello");
    let mut pieces = [[0; 4]; 4];
    let came = [
        net.read(stream, &mut pieces[0]),
        net.read(stream, &mut pieces[1][..1]),
        net.read(stream, &mut pieces[2]),
        net.read(stream, &mut pieces[3]),
    ];
    net.close(stream);
    let dialled = net.dial("b:2");
    assert!(rt; (took, dialled) == (Wrote::Took(5), Dialed::Failed));
    assert!(rt; came == [Came::Got(2), Came::Got(1), Came::Got(2), Came::End]);
    assert!(rt; pieces == [*b"ab\0\0", *b"c\0\0\0", *b"de\0\0", [0; 4]]);
    assert_events(
        &rt,
        net.events(),
        &[
            "dialled", "out", "came", "came", "came", "ended", "closed", "no dial",
        ],
    );
    Ok(())
}

#[test]
fn net_fails_at_its_calls(rt: HostRuntime) -> Result<(), Fail> {
    let streams: [(&[u8], u32, bool); 2] = [(b"first", 9, true), (b"xy", 0, false)];
    let mut net = net_of(rt.alloc(), &streams, &[1, 3, 5])?;
    let failed = net.dial("a:1");
    let Dialed::Stream(stream) = net.dial("a:1") else {
        return Err(Fail::from("no stream"));
    };
    let took = net.write(stream, b"hello");
    let mut piece = [0; 4];
    let came = [
        net.read(stream, &mut piece),
        net.read(stream, &mut piece),
        net.read(stream, &mut piece),
        net.read(stream, &mut piece),
    ];
    assert!(rt; (failed, took) == (Dialed::Failed, Wrote::Failed));
    assert!(rt; came == [Came::Got(1), Came::Failed, Came::Got(1), Came::NotYet]);
    assert!(rt; piece == *b"y\0\0\0");
    assert_events(
        &rt,
        net.events(),
        &[
            "no dial", "dialled", "fault", "came", "fault", "came", "dry",
        ],
    );
    Ok(())
}

#[test]
fn turns_send_and_receive(rt: HostRuntime) -> Result<(), Fail> {
    let mut net = net_of(rt.alloc(), &[(b"reply", 3, true)], &[])?;
    let Dialed::Stream(stream) = net.dial("a:1") else {
        return Err(Fail::from("no stream"));
    };
    let took = send_some(&mut net, stream, b"request", 2);
    let mut reply = Buffer::new(rt.alloc());
    let came = [
        receive_some(&mut net, stream, &mut reply, 9),
        receive_some(&mut net, stream, &mut reply, 1),
        receive_some(&mut net, stream, &mut reply, 1),
        receive_some(&mut net, stream, &mut reply, 1),
    ];
    assert!(rt; took == Wrote::Took(5));
    assert!(rt; came == [Came::Got(3), Came::Got(1), Came::Got(1), Came::End]);
    assert!(rt; reply.as_slice() == b"reply".as_slice());
    Ok(())
}

#[test]
fn the_laws(_rt: HostRuntime) {
    laws::other_streams_stay();
    laws::calls_on_one_stream();
    laws::gains_are_calls();
    laws::gains_join();
}
