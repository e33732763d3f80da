//! The program `member_prog`: one member of a replica set on a real socket, for trying a driver without a database.
//!
//! `member_prog PORT SET TURNS` listens on 127.0.0.1:PORT and serves any number of connections as the only member of the set
//! SET. It takes OP_MSG messages, however they are cut, and answers each as [`member_core::Member::answer`] does. It ends
//! behind TURNS turns in a row in which nothing came; a turn waits a tenth of a second at most.
//!
//! It prints nothing and ends with 0; with 1 where the port cannot be listened on, with 3 where memory ran out, and with 2
//! where the words are refused: then it prints the line `mdc member: usage` on standard error.
//!
//! What the words ask for, the member, and what a turn of one connection does are calls of [`member_serve`], whose contracts
//! say it. Here stand the sockets: a [`server::Server`] waits until some are ready and gives those their turns. An
//! [`accepted_socket::AcceptedSocket`] is a connection as a net.
#![tactic(auto)]

ghost use Rattle.std.specs.Prelude.{◌≤◌, length};
ghost use Rattle.member_serve.specs.Words.{MOST_SET};

mod accepted_socket;
mod client;
mod server;

use bson_doc::{Rows, Text};
use member_serve::{Settings, member_of, read_words};
use server::{Server, Stop};
use std::io::ErrorKind;
use std::net::Net as Sockets;
use std::process::ExitCode;
use std::sync::Wait;
use std::time::Clock;
use std::{env, io};

/// How the program ends.
#[derive(Clone, Copy, Debug, PartialEq, Eq)]
enum Status {
    /// It served until nothing came any more.
    Served,
    /// The port cannot be listened on.
    Port,
    /// The words are refused.
    Usage,
    /// Memory ran out.
    Memory,
}

impl Status {
    /// The number that the program ends with.
    fn code(self) -> u8 {
        match self {
            Status::Served => 0,
            Status::Port => 1,
            Status::Usage => 2,
            Status::Memory => 3,
        }
    }
}

fn main(rt: HostRuntime) -> ExitCode {
    let status = match words_of(&rt) {
        Ok(words) => match read_words(words.as_slice()) {
            Some(settings) => serve(&rt, &settings),
            None => Status::Usage,
        },
        Err(status) => status,
    };
    // A complaint that cannot be printed changes nothing: the status tells it.
    let _ = complain(&rt, status);
    ExitCode::from(status.code())
}

/// The command line's words behind the program's name. One that is not UTF-8 is refused.
fn words_of(rt: &HostRuntime) -> Result<Rows<Text>, Status> {
    let all = match env::args(rt) {
        Ok(all) => all,
        Err(error) if error.kind() == ErrorKind::InvalidData => return Err(Status::Usage),
        Err(_) => return Err(Status::Memory),
    };
    let mut words = Rows::new(rt.alloc());
    for word in all.skip(1) {
        let Ok(text) = Text::take(rt.alloc(), word.as_str()) else {
            return Err(Status::Memory);
        };
        let Ok(()) = words.push(text) else {
            return Err(Status::Memory);
        };
    }
    Ok(words)
}

/// Serves the member that the settings ask for, to the end.
fn serve<R: AllocGlobal + Sockets + Clock + Wait>(rt: &R, settings: &Settings) -> Status
    requires port { 1 ≤ settings.now.port }
    requires set { length settings.now.set.now ≤ MOST_SET }
{
    let Ok(member) = member_of(rt.alloc(), settings) else {
        return Status::Memory;
    };
    let mut server = match Server::listen(rt.alloc(), rt, settings.port, member) {
        Ok(server) => server,
        Err(Stop::Port) => return Status::Port,
        Err(Stop::Memory) => return Status::Memory,
    };
    match server.run(rt, settings.turns) {
        Ok(()) => Status::Served,
        Err(_) => Status::Memory,
    }
}

/// Prints the line on standard error for words that are refused.
fn complain(rt: &HostRuntime, status: Status) -> io::Result<()> {
    match status {
        Status::Usage => eprintln!(rt; "mdc member: usage"),
        Status::Served | Status::Port | Status::Memory => Ok(()),
    }
}
