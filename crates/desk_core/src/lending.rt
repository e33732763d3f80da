//! The connection that is lent to a command (CMAP, Checking Out a Connection).
ghost use Rattle.std.specs.Prelude.{◌≡◌, false, IfSome};
ghost use Rattle.desk_core.specs.Lending.{IsLentTo, IsOnStream};

use crate::state::Core;
use cmd_state::{CheckOut, RunningCommand};
use net_link::Net;
use wired_trail::StreamUse;

/// A connection that is lent to a command.
#[derive(Clone, Copy, Drop)]
pub struct Lent {
    /// The server's number.
    pub host: u32,
    /// The connection, by its number in the server's pool.
    pub conn: u64,
    /// Its generation.
    pub generation: u64,
}

/// A command in a step, with the connection that is lent to it.
#[derive(Clone, Copy, Drop)]
pub struct LentAt {
    /// The moment of the step, in microseconds.
    pub moment: u64,
    /// The command's number.
    pub op: u32,
    /// The connection.
    pub lent: Lent,
}

impl<N: Net> Core<N> {
    /// The connection that is lent to a command; None where none is.
    pub fn lent_to(&self, running: &RunningCommand) -> Option<Lent>
        requires runs { self.now.is_stopped ≡ false }
        ensures lent { IfSome result (IsLentTo self.now.trail.point.state running.now) }
    {
        let CheckOut::Has { host, ticket, conn } = running.check_out() else {
            return None;
        };
        let held = self.servers.get(host as usize)?.find_lent(conn)?;
        if held.ticket != ticket {
            return None;
        }
        Some(Lent {
            host,
            conn,
            generation: held.generation,
        })
    }

    /// The stream of a connection, where it is in use for that.
    pub fn stream_lent(&self, lent: Lent) -> Option<u64>
        requires runs { self.now.is_stopped ≡ false }
        ensures stream { IfSome result (IsOnStream self.now.trail.point.state self.now.lines lent) }
    {
        let Lent { host, conn, .. } = lent;
        let stream = self.servers.get(host as usize)?.stream_of(conn)?;
        if self.wired.use_of(stream) != Some(StreamUse::Conn { host, conn }) {
            return None;
        }
        Some(stream)
    }
}
