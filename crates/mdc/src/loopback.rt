//! One insert over real sockets: a run of the program's net, clock and dice against a member that a thread serves.
ghost use Rattle.std.specs.Prelude.{◌≡◌, []};

use crate::machine_clock::MachineClock;
use crate::machine_dice::MachineDice;
use crate::socket_net::SocketNet;
use crate::socket_watch::SocketWatch;
use bson_doc::{Bytes, Rows, Text};
use desk_share::LaneClock;
use drv_events::Hooks;
use member_core::Member;
use member_serve::{Settings, member_of};
use msg_wire::{Message, MsgFault, read};
use net_link::{Dice, Net, OpenGate, SliceSource, VecSink};
use server_pick::KeepAll;
use shell_top::{Status, run};
use std::alloc::{AllocError, Global};
use std::io::{ErrorKind, Read, Write};
use std::net::TcpListener;
use std::sync::Wait;
use std::test::Fail;
use std::thread::Threads;
use std::{io, thread};

/// The script of one insert.
const SCRIPT: &str = r#"{"lane":1,"op":"insert","coll":"a","doc":{"_id":7}}"#;

/// What the run reports where the member added the insert.
const REPORT: &str = "1: ok n=1 modified=0 attempts=1\ndone 1 ok 1\n";

/// Why a client cannot be served: it sent no message.
#[derive(Debug, Drop)]
struct NoRequest;

/// Whether the client ended the stream: it leaves the answer to its farewell unread, so its end may reset the stream.
fn is_end(error: &io::Error) -> bool {
    matches!(
        error.kind(),
        ErrorKind::ConnectionReset | ErrorKind::BrokenPipe
    )
}

/// The next message of a stream, however it is cut; none where the client ended the stream.
fn request_on(alloc: Global, stream: &mut impl Read) -> Result<Option<Message>, Fail> {
    let mut held = Vec::new(alloc);
    let mut piece = [0; 64];
    for _ in 0..u64::MAX {
        match read(alloc, held.as_slice()) {
            Ok(message) => return Ok(Some(message)),
            Err(MsgFault::Short { .. }) => {}
            Err(_) => return Err(Fail::from(NoRequest)),
        }
        let count = match stream.read(&mut piece) {
            Ok(count) => count,
            Err(error) if is_end(&error) => 0,
            Err(error) => return Err(Fail::from(error)),
        };
        if count == 0 {
            return Ok(None);
        }
        held.extend_from_slice(&piece[..count])?;
    }
    Ok(None)
}

/// Has the member answer the next request of a stream, and says whether there may be another.
fn answer_on<S: Read + Write>(
    alloc: Global,
    stream: &mut S,
    member: &mut Member,
) -> Result<bool, Fail> {
    let Some(request) = request_on(alloc, stream)? else {
        return Ok(false);
    };
    let answer = member.answer(alloc, &request, 0, 0, 0, true)?;
    match stream.write_all(answer.bytes.as_slice()) {
        Ok(()) => Ok(true),
        Err(error) if is_end(&error) => Ok(false),
        Err(error) => Err(Fail::from(error)),
    }
}

/// Has the member answer the first check of a client, and then all that its first connection asks.
fn serve(alloc: Global, listener: &TcpListener, member: &mut Member) -> Result<(), Fail> {
    let (mut checks, _) = listener.accept()?;
    answer_on(alloc, &mut checks, member)?;
    let (mut stream, _) = listener.accept()?;
    for _ in 0..u64::MAX {
        if !answer_on(alloc, &mut stream, member)? {
            break;
        }
    }
    Ok(())
}

/// What a run asks of the machine.
#[derive(Drop)]
struct Outside<'a, N, C, D> {
    net: N,
    clock: &'a C,
    dice: D,
}

/// What a run is asked for.
#[derive(Drop)]
struct Asked {
    words: Rows<Text>,
    script: SliceSource,
    picker: Box<KeepAll>,
}

/// The script, against that port.
fn asked_of(alloc: Global, port: u16) -> Result<Asked, AllocError> {
    let mut words = Rows::new(alloc);
    push_words(alloc, &mut words, port)?;
    let bytes = Bytes::take(alloc, SCRIPT.as_bytes())?;
    Ok(Asked {
        words,
        script: SliceSource::new(bytes, Rows::new(alloc)),
        picker: Box::new(alloc, KeepAll)?,
    })
}

/// Appends the words of a run against that port.
fn push_words(alloc: Global, words: &mut Rows<Text>, port: u16) -> Result<(), AllocError> {
    let uri = format!(in alloc; "mongodb://127.0.0.1:{port}/?replicaSet=rs0")?;
    for word in ["run", uri.as_str()] {
        words.push(Text::take(alloc, word)?)?;
    }
    Ok(())
}

/// Runs the script against that port, and says whether its status is 0.
fn is_run<
    R: Threads + Wait + Sync,
    N: Net + Send + Drop,
    C: LaneClock + Send + Sync,
    D: Dice + Send + Drop,
>(
    rt: &R,
    alloc: Global,
    port: u16,
    outside: Outside<'_, N, C, D>,
    out: &mut VecSink,
) -> Result<bool, AllocError>
    requires fresh { N.tells → N.history outside.net ≡ [] }
{
    let Asked {
        words,
        mut script,
        picker,
    } = asked_of(alloc, port)?;
    let Outside { net, clock, dice } = outside;
    let ended = run(
        rt,
        alloc,
        &words,
        &mut script,
        out,
        net,
        clock,
        dice,
        Hooks::new(alloc),
        picker,
        &OpenGate,
    );
    Ok(matches!(ended.status, Status::AllOk))
}

#[test]
fn loopback(rt: HostRuntime) -> Result<(), Fail> {
    let alloc = rt.alloc();
    let listener = TcpListener::bind(&rt, "127.0.0.1:0")?;
    let port = listener.local_addr()?.port().max(1);
    let settings = Settings {
        port,
        set: "rs0",
        turns: 1,
    };
    let mut member = member_of(alloc, &settings)?;
    let mut out = VecSink::new(alloc, 4096, Rows::new(alloc))?;
    let (served, is_ok) = thread::join_mut(
        &rt,
        &mut || serve(alloc, &listener, &mut member),
        &mut || {
            let Ok(dice) = MachineDice::new(&rt) else {
                return Ok(false);
            };
            let watch = SocketWatch::new(alloc, &rt);
            let outside = Outside {
                net: SocketNet::new(alloc, &rt, &watch),
                clock: &MachineClock::new(&rt, &watch),
                dice,
            };
            is_run(&rt, alloc, port, outside, &mut out)
        },
    );
    served?;
    assert!(rt; is_ok?);
    assert_eq!(rt; out.written(), REPORT.as_bytes());
    assert_eq!(rt; member.log().len(), 1);
    Ok(())
}
