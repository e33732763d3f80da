ghost use Rattle.std.specs.Prelude.{◌≡◌, ◌<◌, ◌++◌, length, drop};
ghost use Rattle.net_link.specs.Causes.{HasCause};
ghost use Rattle.net_link.specs.Events.{Adds};
ghost use Rattle.net_link.specs.Calls.{write_events, read_events, TakesWithin};
ghost use Rattle.net_link.specs.Inbox.{ReadsInbox};
ghost use Rattle.net_link.specs.Keeps.{Keeps, all, all_but_inbox_of};
ghost use Rattle.net_link.specs.Turns.{added, AddsUpTo};

use crate::{Came, Net, Wrote};
use bson_doc::Buffer;

/// How much one read asks for at most.
const PIECE: usize = 4096;

/// How much it may be to be read by way of a piece of no more, which costs less to lay out than one of [`PIECE`].
const SHORT_PIECE: usize = 256;

/// One write on a stream of what lies behind the first `sent` bytes.
pub fn send_some<N: Net>(net: &mut N, stream: u64, bytes: &[u8], sent: usize) -> Wrote
    requires is_open { N.is_open net.old stream }
    requires unsent { sent < length bytes.now }

    ensures within { TakesWithin (drop sent bytes.now) result }
    ensures cause { HasCause (N.faults net.old) (N.faults net.new) (result ≡ Wrote.Failed) }
    ensures keeps { Keeps all N.tells N.is_open N.next N.inbox N.has_ended net.old net.new }

    ensures told { N.tells → Adds (write_events stream (drop sent bytes.now) result) (N.history net.old) (N.history net.new) }
    ensures full { N.tells → result ≡ Wrote.NotYet → N.is_full net.new stream }
{
    net.write(stream, &bytes[sent..])
}

/// One read on a stream of at most `want` bytes, which are appended to `into`. At `Memory` nothing was read.
pub fn receive_some<N: Net>(net: &mut N, stream: u64, into: &mut Buffer<u8>, want: usize) -> Came
    requires is_open { N.is_open net.old stream }
    requires some { 0 < want }

    ensures kept { into.new.items ≡ into.old.items ++ added into.old.items into.new.items }
    ensures within { AddsUpTo want (added into.old.items into.new.items) result }
    ensures cause { HasCause (N.faults net.old) (N.faults net.new) (result ≡ Came.Failed) }
    ensures keeps { Keeps (all_but_inbox_of stream) N.tells N.is_open N.next N.inbox N.has_ended net.old net.new }

    ensures told { N.tells → Adds (read_events stream (added into.old.items into.new.items) result) (N.history net.old) (N.history net.new) }
    ensures inbox { N.tells → ReadsInbox (N.inbox net.old stream) (N.inbox net.new stream) (N.has_ended net.new stream) (added into.old.items into.new.items) result }
{
    if want <= SHORT_PIECE {
        receive_piece(net, stream, into, &mut [0; SHORT_PIECE][..want])
    } else {
        receive_piece(net, stream, into, &mut [0; PIECE][..want.min(PIECE)])
    }
}

/// One read on a stream into a piece, of which what came is appended to `into`. At `Memory` nothing was read.
fn receive_piece<N: Net>(net: &mut N, stream: u64, into: &mut Buffer<u8>, piece: &mut [u8]) -> Came
    requires is_open { N.is_open net.old stream }
    requires some { 0 < length piece.old }

    ensures kept { into.new.items ≡ into.old.items ++ added into.old.items into.new.items }
    ensures within { AddsUpTo (length piece.old) (added into.old.items into.new.items) result }
    ensures cause { HasCause (N.faults net.old) (N.faults net.new) (result ≡ Came.Failed) }
    ensures keeps { Keeps (all_but_inbox_of stream) N.tells N.is_open N.next N.inbox N.has_ended net.old net.new }

    ensures told { N.tells → Adds (read_events stream (added into.old.items into.new.items) result) (N.history net.old) (N.history net.new) }
    ensures inbox { N.tells → ReadsInbox (N.inbox net.old stream) (N.inbox net.new stream) (N.has_ended net.new stream) (added into.old.items into.new.items) result }
{
    let Ok(()) = into.reserve(piece.len()) else {
        return Came::Memory;
    };
    match net.read(stream, piece) {
        Came::Got(count) => {
            into.put_all(&piece[..count]);
            Came::Got(count)
        }
        Came::NotYet => Came::NotYet,
        Came::End => Came::End,
        Came::Failed => Came::Failed,
        Came::Memory => Came::Memory,
    }
}
