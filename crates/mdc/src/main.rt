//! The program `mdc`: runs a script of commands against a MongoDB deployment and reports what came of each, or runs commands that a
//! seed gives over members in memory and sums up.
//!
//! `mdc run URI` reads a script from the standard input, one JSON object a line, finds the servers of the deployment that the
//! connection string URI gives, runs the commands, those of one lane in order, and prints a line a command and their count. `mdc soak SEED N` runs N
//! commands over a replica set of three that is played in memory, to which happens what SEED gives, and prints seven lines that sum
//! up. [`shell_top::run`] is the top call, over any source, sink, net, clock and dice; its contract says what a run does. [`main`]
//! makes the real objects, which are the trusted edge: the standard input and output, a net of sockets, the machine's clock, and
//! dice of a seed that the system drew. The net and the clock share a [`socket_watch::SocketWatch`], so that a rest ends when a
//! socket is ready. A soak uses the standard output alone.
//!
//! It ends with the status of the run: 0 where every command's answer is ok, 1 where some answer is not, 2 where the words are
//! refused, 3 where the script is, 4 where the script could not be read, 5 where what was to be printed could not be written, 6
//! where memory ran out, or where the system gave no seed. For 2 to 6 it prints one line on standard error.
#![tactic(auto)]

mod connection;
#[cfg(test)]
mod loopback;
mod machine_clock;
mod machine_dice;
mod poller;
mod socket_net;
mod socket_watch;
mod standard_input;
mod standard_output;
#[cfg(test)]
mod tests;

use bson_doc::{Rows, Text};
use drv_events::Hooks;
use machine_clock::MachineClock;
use machine_dice::MachineDice;
use net_link::OpenGate;
use run_words::{WordStop, read_words};
use server_pick::KeepAll;
use shell_top::{Status, UseFault, run};
use socket_net::SocketNet;
use socket_watch::SocketWatch;
use standard_input::StandardInput;
use standard_output::StandardOutput;
use std::io::{ErrorKind, Input};
use std::process::ExitCode;
use std::{env, io};

fn main(rt: HostRuntime) -> ExitCode {
    let status = match (words_of(&rt), MachineDice::new(&rt)) {
        (Ok(words), Ok(dice)) => {
            let mut script = StandardInput::new(rt.reader());
            let mut out = StandardOutput::new(&rt);
            let watch = SocketWatch::new(rt.alloc(), &rt);
            let net = SocketNet::new(rt.alloc(), &rt, &watch);
            let clock = MachineClock::new(&rt, &watch);
            match Box::new(rt.alloc(), KeepAll) {
                Ok(picker) => {
                    let ended = run(
                        &rt,
                        rt.alloc(),
                        &words,
                        &mut script,
                        &mut out,
                        net,
                        &clock,
                        dice,
                        Hooks::new(rt.alloc()),
                        picker,
                        &OpenGate,
                    );
                    ended.status
                }
                Err(_) => without_dice(&rt, &words),
            }
        }
        (Err(status), _) => status,
        (Ok(words), Err(_)) => without_dice(&rt, &words),
    };
    // A complaint that cannot be printed changes nothing: the status tells it.
    let _ = complain(&rt, &status);
    ExitCode::from(status.code())
}

/// The command line's words behind the program's name. One that is not UTF-8 is not in form.
fn words_of(rt: &HostRuntime) -> Result<Rows<Text>, Status> {
    let all = match env::args(rt) {
        Ok(all) => all,
        Err(error) if error.kind() == ErrorKind::InvalidData => {
            return Err(Status::Usage(UseFault::Words));
        }
        Err(_) => return Err(Status::Memory),
    };
    let mut words = Rows::new(rt.alloc());
    for word in all.skip(1) {
        let Ok(text) = Text::take(rt.alloc(), word.as_str()) else {
            return Err(Status::Memory);
        };
        let Ok(()) = words.push(text) else {
            return Err(Status::Memory);
        };
    }
    Ok(words)
}

/// The status of a run, or of a soak, for which the system gave no seed or no memory: words that are refused are told first.
fn without_dice(rt: &HostRuntime, words: &Rows<Text>) -> Status {
    match read_words(rt.alloc(), words.as_slice()) {
        Err(WordStop::Fault(fault)) => Status::Usage(fault),
        Err(WordStop::Memory) | Ok(_) => Status::Memory,
    }
}

/// Prints the line on standard error for a run without a whole report.
fn complain(rt: &HostRuntime, status: &Status) -> io::Result<()> {
    match status {
        Status::AllOk | Status::SomeFailed => Ok(()),
        Status::Usage(_) => eprintln!(rt; "mdc: usage"),
        Status::Script(fault) => eprintln!(rt; "mdc: script line {}", fault.line),
        Status::ReadFault => eprintln!(rt; "mdc: read fault"),
        Status::WriteFault => eprintln!(rt; "mdc: write fault"),
        Status::Memory => eprintln!(rt; "mdc: memory"),
    }
}
