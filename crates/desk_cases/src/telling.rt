use crate::peers::{DialPlan, Peers};
use crate::state::{State, Told};
use crate::stream::{Coming, Taking};
use case_files::{CaseFault, Words, hex_bytes, parsed};
use host_name::{Host, HostFault};
use std::alloc::Global;
use std::cell::RefCell;

/// The peers are being told or asked something else, which does not come about.
const IN_USE: CaseFault = CaseFault::Refused("the peers are in use");

/// The steps that tell peers what they do:
///
/// - `document NAME MEMBER..` names a document, of members as `case_documents` reads them;
/// - `dial HOST refused` and `dial HOST starved` tell of the next dial of the host of which nothing was told that it is
///   refused, or has no memory; other dials open streams, which count from 0;
/// - `write STREAM full`, `write STREAM some=BYTES`, `write STREAM fault` and `write STREAM starved` tell of the next write of
///   which nothing was told that the stream is full, takes at most so many bytes, fails, or has no memory; other writes take
///   all;
/// - `reply STREAM NAME [to=ID] [piece=BYTES]` has the message with that document come, in answer to the request of that id,
///   or to the last one that was queued on the stream, in one piece or in pieces of that size, each with a read behind it that
///   has nothing;
/// - `bytes STREAM HEX.. [piece=BYTES]` has bytes come, and `read STREAM pause`, `read STREAM end`, `read STREAM fault` and
///   `read STREAM starved` tell what comes behind what was told before: that one read has nothing, that the peer ends the
///   stream, that one read fails, or has no memory.
///
/// A stream can be told of ahead of its dial, but not ahead of its client.
pub fn told_step(
    alloc: Global,
    state: &mut State<'_>,
    verb: &str,
    words: &mut Words<'_>,
) -> Result<Told, CaseFault> {
    match verb {
        "document" => {
            let name = words.next_as("name")?;
            let members = state.documents.add(alloc, name, words)?;
            Ok(Told::Count("members", members))
        }
        "dial" => dial(alloc, state.peers, words),
        "write" => taking(alloc, state.peers, words),
        "read" => coming(alloc, state.peers, words),
        "reply" => reply(alloc, state, words),
        "bytes" => bytes(alloc, state.peers, words),
        _ => Err(CaseFault::word(alloc, verb)),
    }
}

fn dial(alloc: Global, peers: &RefCell<Peers>, words: &mut Words<'_>) -> Result<Told, CaseFault> {
    let address = address(alloc, words.next_as("host")?)?;
    let word = words.next_as("plan")?;
    let plan = match word {
        "refused" => DialPlan::Refused,
        "starved" => DialPlan::Starved,
        _ => return Err(CaseFault::form(alloc, word)),
    };
    match peers.try_borrow_mut() {
        Ok(mut peers) => Ok(Told::Count("dials", peers.tell_dial(address, plan)?)),
        Err(_) => Err(IN_USE),
    }
}

/// The address at which a host is dialled.
fn address(alloc: Global, word: &str) -> Result<String, CaseFault> {
    match Host::parse(alloc, word) {
        Ok(host) => Ok(host.text(alloc)?),
        Err(HostFault::Memory) => Err(CaseFault::Memory),
        Err(_) => Err(CaseFault::form(alloc, word)),
    }
}

fn stream_number(alloc: Global, words: &mut Words<'_>) -> Result<u64, CaseFault> {
    parsed(alloc, words.next_as("stream")?)
}

fn taking(alloc: Global, peers: &RefCell<Peers>, words: &mut Words<'_>) -> Result<Told, CaseFault> {
    let number = stream_number(alloc, words)?;
    let taking = match words.number(alloc, "some")? {
        Some(most) => Taking::Some(most),
        None => plain_taking(alloc, words.next_as("write")?)?,
    };
    match peers.try_borrow_mut() {
        Ok(mut peers) => Ok(Told::Count("writes", peers.tell_taking(number, taking)?)),
        Err(_) => Err(IN_USE),
    }
}

fn plain_taking(alloc: Global, word: &str) -> Result<Taking, CaseFault> {
    match word {
        "full" => Ok(Taking::Full),
        "fault" => Ok(Taking::Fault),
        "starved" => Ok(Taking::Starved),
        _ => Err(CaseFault::form(alloc, word)),
    }
}

fn coming(alloc: Global, peers: &RefCell<Peers>, words: &mut Words<'_>) -> Result<Told, CaseFault> {
    let number = stream_number(alloc, words)?;
    let word = words.next_as("read")?;
    let coming = match word {
        "pause" => Coming::Pause,
        "end" => Coming::End,
        "fault" => Coming::Fault,
        "starved" => Coming::Starved,
        _ => return Err(CaseFault::form(alloc, word)),
    };
    match peers.try_borrow_mut() {
        Ok(mut peers) => Ok(Told::Count("reads", peers.tell_coming(number, coming)?)),
        Err(_) => Err(IN_USE),
    }
}

fn reply(alloc: Global, state: &State<'_>, words: &mut Words<'_>) -> Result<Told, CaseFault> {
    let number = stream_number(alloc, words)?;
    let name = words.next_as("document")?;
    let piece = words.number(alloc, "piece")?;
    let to = match words.number(alloc, "to")? {
        Some(to) => to,
        None => asked_on(state, number)?,
    };
    let message = state.documents.message(alloc, name, to)?;
    tell_bytes(state.peers, number, message.as_slice(), piece)?;
    Ok(Told::Message(message.len(), to))
}

/// The id of the last request that was queued on a stream.
fn asked_on(state: &State<'_>, stream: u64) -> Result<i32, CaseFault> {
    match state.client.log() {
        Some(log) => log
            .asked_on(stream)
            .ok_or(CaseFault::Refused("nothing was asked on the stream")),
        None => Err(CaseFault::Refused("no client is there")),
    }
}

fn bytes(alloc: Global, peers: &RefCell<Peers>, words: &mut Words<'_>) -> Result<Told, CaseFault> {
    let number = stream_number(alloc, words)?;
    let piece = words.number(alloc, "piece")?;
    let mut bytes = Vec::new(alloc);
    for word in words.rest(alloc) {
        bytes.extend_from_slice(&hex_bytes(alloc, word)?)?;
    }
    tell_bytes(peers, number, &bytes, piece)?;
    Ok(Told::Count("length", bytes.len()))
}

/// Has bytes come on a stream.
fn tell_bytes(
    peers: &RefCell<Peers>,
    number: u64,
    bytes: &[u8],
    piece: Option<usize>,
) -> Result<(), CaseFault> {
    match peers.try_borrow_mut() {
        Ok(mut peers) => peers.tell_bytes(number, bytes, piece),
        Err(_) => Err(IN_USE),
    }
}
