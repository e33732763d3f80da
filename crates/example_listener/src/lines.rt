use drv_events::Event;
use host_name::Host;
use std::alloc::AllocError;

/// Writes the line of an event, in the words of the standards' events.
pub fn write_line(lines: &mut String, names: &[Host], event: &Event) -> Result<(), AllocError> {
    match *event {
        Event::TopologyOpened => write!(lines, "topology opened")?,
        Event::TopologyChanged => write!(lines, "topology changed")?,
        Event::TopologyClosed => write!(lines, "topology closed")?,
        Event::ServerOpened { host } => of_host(lines, names, host, "server opened")?,
        Event::ServerClosed { host } => of_host(lines, names, host, "server closed")?,
        Event::BeatStarted { host } => of_host(lines, names, host, "heartbeat started")?,
        Event::BeatSucceeded { host, .. } => of_host(lines, names, host, "heartbeat succeeded")?,
        Event::BeatFailed { host } => of_host(lines, names, host, "heartbeat failed")?,
        Event::PoolCreated { host } => of_host(lines, names, host, "pool created")?,
        Event::PoolReady { host } => of_host(lines, names, host, "pool ready")?,
        Event::PoolCleared { host } => of_host(lines, names, host, "pool cleared")?,
        Event::PoolClosed { host } => of_host(lines, names, host, "pool closed")?,
        Event::ConnCreated { host, conn } => {
            of_host(lines, names, host, "connection created")?;
            write!(lines, " conn {conn}")?;
        }
        Event::ConnReady { host, conn } => {
            of_host(lines, names, host, "connection ready")?;
            write!(lines, " conn {conn}")?;
        }
        Event::ConnClosed { host, conn, reason } => {
            of_host(lines, names, host, "connection closed")?;
            write!(lines, " conn {conn} {reason:?}")?;
        }
        Event::OutStarted { host, op } => {
            of_host(lines, names, host, "check-out started")?;
            write!(lines, " op {op}")?;
        }
        Event::OutFailed { host, op, why } => {
            of_host(lines, names, host, "check-out failed")?;
            write!(lines, " op {op} {why:?}")?;
        }
        Event::CheckedOut { host, conn, op } => {
            of_host(lines, names, host, "checked out")?;
            write!(lines, " conn {conn} op {op}")?;
        }
        Event::CheckedIn { host, conn, op } => {
            of_host(lines, names, host, "checked in")?;
            write!(lines, " conn {conn} op {op}")?;
        }
        Event::CommandStarted { op } => write!(lines, "command started op {op}")?,
        Event::CommandSucceeded { op } => write!(lines, "command succeeded op {op}")?,
        Event::CommandFailed { op } => write!(lines, "command failed op {op}")?,
    }
    writeln!(lines)
}

/// Writes what happened, and to which host.
fn of_host(lines: &mut String, names: &[Host], host: u32, what: &str) -> Result<(), AllocError> {
    match names.get(host as usize) {
        Some(name) => write!(lines, "{what} {name}"),
        None => write!(lines, "{what} host {host}"),
    }
}
