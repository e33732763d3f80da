use crate::servers::host;
use bson_doc::{Oid, Rows, TopologyVersion};
use case_files::{CaseFault, parsed};
use host_name::Host;
use std::alloc::Global;

/// The hosts between commas.
pub fn hosts(alloc: Global, text: &str) -> Result<Rows<Host>, CaseFault> {
    let mut hosts = Rows::new(alloc);
    for name in text.split(',') {
        hosts.push(host(alloc, name)?)?;
    }
    Ok(hosts)
}

/// The ObjectId that ends with the byte, behind zeros.
pub fn oid(last: u8) -> Oid {
    Oid([0, 0, 0, 0, 0, 0, 0, 0, 0, 0, 0, last])
}

/// A topology version `PROCESS/COUNTER`, `-` for none. The process is the last byte of its ObjectId, or `FIRST.LAST`.
pub fn version(alloc: Global, text: &str) -> Result<Option<TopologyVersion>, CaseFault> {
    if text == "-" {
        return Ok(None);
    }
    let Some((process, counter)) = text.split_once('/') else {
        return Err(CaseFault::form(alloc, text));
    };
    let process = process_of(alloc, process)?;
    let counter = parsed(alloc, counter)?;
    Ok(Some(TopologyVersion { process, counter }))
}

fn process_of(alloc: Global, text: &str) -> Result<Oid, CaseFault> {
    let Some((first, last)) = text.split_once('.') else {
        return Ok(oid(parsed(alloc, text)?));
    };
    let mut process = oid(parsed(alloc, last)?);
    process.0[0] = parsed(alloc, first)?;
    Ok(process)
}

/// A topology version as it is written, without its process' first byte.
pub fn version_text(alloc: Global, version: &Option<TopologyVersion>) -> Result<String, CaseFault> {
    match version {
        Some(TopologyVersion { process, counter }) => {
            let last = process.0[11];
            Ok(format!(in alloc; "{last}/{counter}")?)
        }
        None => Ok(String::from_str(alloc, "none")?),
    }
}
