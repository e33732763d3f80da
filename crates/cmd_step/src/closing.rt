//! A connection's stream is closed, where it is in use for that connection (CMAP, Closing a Connection).
ghost use Rattle.std.specs.Prelude.{◌≡◌, ◌≤◌, None, IfSome};
ghost use Rattle.desk_trail.specs.States.{stream_of};
ghost use Rattle.wired_trail.specs.declared.stream_use.StreamUse.TheVariants as for_use;
ghost use Rattle.cmd_step.specs.Closed.{ClosesOnly, IsUnused};

use net_link::Net;
use server_state::Server;
use wired_trail::{StreamUse, WiredTrail};

/// Closes a stream, where it is in use for that.
fn close_where<N: Net>(wired: &mut WiredTrail<N>, stream: u64, is_for: StreamUse)
    ensures trail { wired.new.trail ≡ wired.old.trail }
    ensures closes { ClosesOnly (λ u. u ≡ is_for) wired.old.lines wired.new.lines }
    ensures gone { IsUnused wired.new.lines stream is_for }
    ensures faults { N.faults wired.old.net ≤ N.faults wired.new.net }
{
    if wired.use_of(stream) == Some(is_for) {
        wired.close(stream);
    }
}

/// Closes the stream of a connection.
pub fn close_conn<N: Net>(wired: &mut WiredTrail<N>, host: u32, server: &Server, conn: u64)
    ensures trail { wired.new.trail ≡ wired.old.trail }
    ensures closes { ClosesOnly (λ u. u ≡ for_use.Conn host conn) wired.old.lines wired.new.lines }
    ensures gone { IfSome (stream_of server.now conn) (λ stream. IsUnused wired.new.lines stream (for_use.Conn host conn)) }
    ensures streamless { stream_of server.now conn ≡ None → wired.new.lines ≡ wired.old.lines }
    ensures faults { N.faults wired.old.net ≤ N.faults wired.new.net }
{
    if let Some(stream) = server.stream_of(conn) {
        close_where(wired, stream, StreamUse::Conn { host, conn });
    }
}
