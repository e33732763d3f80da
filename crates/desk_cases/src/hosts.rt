use crate::log::Log;
use case_files::Memory;

/// A name and a host.
pub fn push_of_host(line: &mut String, log: &Log<'_>, name: &str, host: u32) -> Result<(), Memory> {
    write!(line, "{name} ")?;
    push_host(line, log, host)
}

/// A name, a command and a host.
pub fn push_at_host(
    line: &mut String,
    log: &Log<'_>,
    name: &str,
    op: u32,
    host: u32,
) -> Result<(), Memory> {
    write!(line, "{name} op={op} ")?;
    push_host(line, log, host)
}

/// `NAME/NUMBER`.
pub fn push_host(line: &mut String, log: &Log<'_>, host: u32) -> Result<(), Memory> {
    match log.names.get(host as usize) {
        Some(name) => write!(line, "{}/{host}", name.name()),
        None => write!(line, "none/{host}"),
    }
}
