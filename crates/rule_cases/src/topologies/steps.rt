//! The steps, each by its first word:
//!
//! - `start HOST.. [set=NAME] [direct]` begins a topology;
//! - `reply HOST KIND WORD..`, `broken HOST` and `refused HOST WORD..` are events that the topology takes in;
//! - `open` begins a book, with the words of `start`, and `offer EVENT [pool=N]` offers it an event, with the generation of
//!   its host's pool, 0 where that is absent;
//! - `hear HOST [took=N] PAIR..` is a hello reply of these pairs that the topology takes in, as a copy of its event;
//! - `hello PAIR..` is a reply that describes the server `h`, `unknown HOST` a server of which nothing is known, and `set
//!   WORD..` sets fields of the description;
//! - `compare VERSION VERSION` compares two topology versions.
use crate::servers::started;
use crate::topologies::books::offer;
use crate::topologies::descriptions::{set_fields, unknown};
use crate::topologies::events::event;
use crate::topologies::replies::{heard, hello};
use crate::topologies::state::{State, Told};
use crate::topologies::topologies::take_in;
use crate::topologies::values::version;
use case_files::{CaseFault, Words};
use hello_reply::compare_version;
use std::alloc::Global;
use topo_book::TopoBook;

/// Takes the step of these words.
pub fn step_of(alloc: Global, state: &mut State, words: &mut Words<'_>) -> Result<Told, CaseFault> {
    let verb = words.next_as("step")?;
    match verb {
        "start" => {
            state.topology = started(alloc, words)?;
            Ok(Told::Started)
        }
        "reply" | "broken" | "refused" => {
            let event = event(alloc, verb, words)?;
            words.end(alloc)?;
            Ok(Told::Changed(take_in(alloc, &mut state.topology, &event)?))
        }
        "hear" => {
            let event = heard(alloc, words)?;
            Ok(Told::Changed(take_in(alloc, &mut state.topology, &event)?))
        }
        "open" => {
            state.book = TopoBook::new(alloc, started(alloc, words)?);
            Ok(Told::Opened)
        }
        "offer" => Ok(Told::Answered(offer(alloc, &mut state.book, words)?)),
        _ => step_of_server(alloc, state, verb, words),
    }
}

/// The steps about one server.
fn step_of_server(
    alloc: Global,
    state: &State,
    verb: &str,
    words: &mut Words<'_>,
) -> Result<Told, CaseFault> {
    match verb {
        "hello" => hello(alloc, words),
        "unknown" => Ok(Told::Described(unknown(alloc, words)?)),
        "set" => match &state.told {
            Told::Described(description) => {
                Ok(Told::Described(set_fields(alloc, description, words)?))
            }
            _ => Err(CaseFault::Refused("no description is there")),
        },
        "compare" => {
            let first = version(alloc, words.next_as("version")?)?;
            let second = version(alloc, words.next_as("version")?)?;
            Ok(Told::Compared(compare_version(first, second)))
        }
        _ => Err(CaseFault::word(alloc, verb)),
    }
}
