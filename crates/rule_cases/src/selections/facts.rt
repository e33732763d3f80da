//! The facts. `chosen HOST`, `none_fits` and `incompatible HOST LEAST GREATEST` are what the selection came to, `kept HOST..` the
//! hosts that the picker kept, and `asked N` how often it was asked. Behind a step that selects nothing stand the servers, as
//! `topology KIND HOST=KIND..`.
use crate::selections::state::State;
use case_files::{CaseFault, Memory};
use server_pick::Picked;
use std::alloc::Global;

/// The fact of that name behind the last step.
pub fn fact_of(alloc: Global, state: &State, name: &str) -> Result<Option<String>, CaseFault> {
    let Some(picked) = &state.picked else {
        return match name {
            "topology" => Ok(Some(topology_text(alloc, state)?)),
            _ => Ok(None),
        };
    };
    match name {
        "chosen" | "none_fits" | "incompatible" => Ok(Some(picked_text(alloc, picked)?)),
        "kept" => Ok(Some(kept_text(alloc, state)?)),
        "asked" => {
            let asked = state.asked;
            Ok(Some(format!(in alloc; "asked {asked}")?))
        }
        _ => Ok(None),
    }
}

fn topology_text(alloc: Global, state: &State) -> Result<String, Memory> {
    let kind = state.topology.kind();
    let mut line = format!(in alloc; "topology {kind:?}")?;
    for place in 0..state.topology.len() {
        if let Some(server) = state.topology.at(place) {
            let host = server.host.name();
            let kind = server.kind;
            write!(&mut line, " {host}={kind:?}")?;
        }
    }
    Ok(line)
}

fn picked_text(alloc: Global, picked: &Picked) -> Result<String, CaseFault> {
    match picked {
        Picked::Chosen(host) => {
            let name = host.name();
            Ok(format!(in alloc; "chosen {name}")?)
        }
        Picked::NoneFits => Ok(String::from_str(alloc, "none_fits")?),
        Picked::Incompatible { host, min, max } => {
            let name = host.name();
            Ok(format!(in alloc; "incompatible {name} {min} {max}")?)
        }
        Picked::Memory => Err(CaseFault::Memory),
    }
}

fn kept_text(alloc: Global, state: &State) -> Result<String, Memory> {
    let mut line = String::from_str(alloc, "kept")?;
    for host in state.kept.as_slice() {
        let name = host.name();
        write!(&mut line, " {name}")?;
    }
    Ok(line)
}
