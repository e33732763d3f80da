use case_files::{CaseFault, Memory};
use host_name::Host;
use std::alloc::Global;
use topo_rules::Change;

/// `change [+HOST..] [-HOST..] [ready=HOST] [clear=HOST] [differs]`: the hosts that came and left, the hosts whose pools
/// are ready and to be cleared, and whether the topology differs; `change nothing` where none of it is there.
pub fn change_text(alloc: Global, change: &Change) -> Result<String, CaseFault> {
    let mut line = String::from_str(alloc, "change")?;
    push_hosts(&mut line, '+', change.added.as_slice())?;
    push_hosts(&mut line, '-', change.removed.as_slice())?;
    if let Some(host) = &change.ready {
        write!(&mut line, " ready={}", host.name())?;
    }
    if let Some(host) = &change.clear {
        write!(&mut line, " clear={}", host.name())?;
    }
    if change.differs {
        line.push_str(" differs")?;
    }
    if line.as_str() == "change" {
        line.push_str(" nothing")?;
    }
    Ok(line)
}

fn push_hosts(line: &mut String, sign: char, hosts: &[Host]) -> Result<(), Memory> {
    for host in hosts {
        write!(line, " {sign}{}", host.name())?;
    }
    Ok(())
}
