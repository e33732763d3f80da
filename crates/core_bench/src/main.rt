//! The program `core_bench`: how long parts of the core take.
//!
//! Its first word chooses what is measured, and the words behind it say of what and how often:
//!
//! ```text
//! documents FILE ROUNDS                        reading and writing a document, by bson_wire
//! topology NAMES WHAT HOSTS ROUNDS             taking an event in, by topo_rules; describing a reply, by hello_reply
//! selection HOSTS ROUNDS                       selecting a server, by server_pick
//! pools WAITING AVAILABLE LENT ROUNDS          a check-out and a check-in, and a sweep, by pool_book
//! sessions OUT ROUNDS                          leasing a session, drawing a number and giving it back, by sess_book
//! checks CHECKS                                checking a server, by desk_core
//! halls WRITES                                 a write to members in memory, by member_hall
//! ```
//!
//! The module of that name says the rest. The program is a measuring instrument and carries no claim; `scripts/bench` runs it.
//!
//! It ends with 0, with 2 where the words are not in form, and with 1 where memory or the clock fails, or what is measured.
#![tactic(auto)]

mod checks;
mod documents;
mod fields;
mod halls;
mod pools;
mod replica_set;
mod selection;
mod sessions;
mod timing;
mod topology;
mod trouble;
mod words;

use std::env;
use std::process::ExitCode;
use trouble::Trouble;

fn main(rt: HostRuntime) -> ExitCode {
    let trouble = match measure(&rt) {
        Ok(()) => return ExitCode::SUCCESS,
        Err(trouble) => trouble,
    };
    let _ = eprintln!(rt; "{}", trouble.text());
    ExitCode::from(trouble.status())
}

/// Measures what the first word behind the program's name chooses.
fn measure(rt: &HostRuntime) -> Result<(), Trouble> {
    let mut words = env::args(rt).map_err(|_| Trouble::Words)?;
    let _program = words.next();
    let chosen = words.next().ok_or(Trouble::Words)?;
    match chosen.as_str() {
        "documents" => documents::measure(rt, &mut words),
        "topology" => topology::measure(rt, &mut words),
        "selection" => selection::measure(rt, &mut words),
        "pools" => pools::measure(rt, &mut words),
        "sessions" => sessions::measure(rt, &mut words),
        "checks" => checks::measure(rt, &mut words),
        "halls" => halls::measure(rt, &mut words),
        _ => Err(Trouble::Words),
    }
}
