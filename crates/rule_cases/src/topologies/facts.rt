//! The facts, each by its first word:
//!
//! - behind an event, `change`; behind it and behind `start`, those of the topology: `topology`, `minutes`, `misfit`,
//!   `means`, `versions`;
//! - behind `open` and `offer` those of the book's topology; behind an offer also `answer`, `accepted` and `change`, and of
//!   a stale version `kept` and `came`;
//! - of a server, `description`, its `copy` and what is `listed`; of a reply at fault `fault` or `many`, and the fault's
//!   `text`;
//! - behind `compare`, `order`.
use crate::topologies::books::answer_fact;
use crate::topologies::changes::change_text;
use crate::topologies::descriptions::{description_fact, reply_fault_fact};
use crate::topologies::state::{State, Told};
use crate::topologies::topologies::topology_fact;
use case_files::CaseFault;
use std::alloc::Global;

/// The fact of that name behind the last step.
pub fn fact_of(alloc: Global, state: &State, name: &str) -> Result<Option<String>, CaseFault> {
    match &state.told {
        Told::Started => topology_fact(alloc, &state.topology, name),
        Told::Changed(change) if name == "change" => Ok(Some(change_text(alloc, change)?)),
        Told::Changed(_) => topology_fact(alloc, &state.topology, name),
        Told::Opened => topology_fact(alloc, state.book.topology(), name),
        Told::Answered(taken) => match answer_fact(alloc, &state.book, taken, name)? {
            Some(fact) => Ok(Some(fact)),
            None => topology_fact(alloc, state.book.topology(), name),
        },
        Told::Described(description) => description_fact(alloc, description, name),
        Told::AtFault(fault) => reply_fault_fact(alloc, fault, name),
        Told::Compared(order) if name == "order" => Ok(Some(format!(in alloc; "order {order:?}")?)),
        Told::Compared(_) => Ok(None),
    }
}
