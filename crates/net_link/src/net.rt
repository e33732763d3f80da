ghost use Rattle.std.specs.Prelude.{◌≡◌, ℕ, ◌<◌, ◌≤◌, ◌^◌, List, length};
ghost use Rattle.net_link.specs.declared.event.NetEvent.{NetEvent};
ghost use Rattle.net_link.specs.Causes.{HasCause};
ghost use Rattle.net_link.specs.Events.{Adds, IsFresh};
ghost use Rattle.net_link.specs.Calls.{dial_events, write_events, read_events, close_events, IfStream, IsNewStream, TakesWithin, GotWithin};
ghost use Rattle.net_link.specs.Inbox.{ReadsInbox};
ghost use Rattle.net_link.specs.Keeps.{Keeps, all, all_but, all_but_inbox_of};

/// The answer of [`Net::dial`].
#[derive(Clone, Copy, Debug, PartialEq, Eq)]
pub enum Dialed {
    /// A connection was begun; this is its stream.
    Stream(u64),
    /// None was begun, and the count of faults rose.
    Failed,
    /// There was no memory for it.
    Memory,
}

/// The answer of [`Net::write`].
#[derive(Clone, Copy, Debug, PartialEq, Eq)]
pub enum Wrote {
    /// So many bytes of the piece were taken, at least one.
    Took(usize),
    /// None can be taken now: the connection does not stand yet, or its out-buffer is full.
    NotYet,
    /// The stream failed, and the count of faults rose.
    Failed,
    /// There was no memory for it.
    Memory,
}

/// The answer of [`Net::read`].
#[derive(Clone, Copy, Debug, PartialEq, Eq)]
pub enum Came {
    /// So many bytes stand at the front of the piece, at least one.
    Got(usize),
    /// Nothing has come yet: the connection does not stand yet, or its inbox is empty.
    NotYet,
    /// The peer ended the stream, and all that it sent was read.
    End,
    /// The stream failed, and the count of faults rose.
    Failed,
    /// There was no memory for it.
    Memory,
}

/// Streams of bytes to peers, none of whose calls waits.
///
/// A net may tell what happened: then contracts read its history and its streams' inboxes. Whether it tells is a fact
/// of its type, so that generic code needs no case for it: a net of sockets tells nothing, one in memory tells all.
/// Call `dial` first; `write`, `read` and at last `close` take the stream that it gave.
pub trait Net {
    /// How often a call has failed.
    ghost faults: { Self → ℕ };

    /// The streams that `dial` gave and `close` has not had.
    ghost is_open: { Self → ℕ → Type 0 };

    /// The mark under which all numbers lie that `dial` gave.
    ghost next: { Self → ℕ };

    /// Whether nets of this type tell what follows.
    ghost tells: { Type 0 };

    /// All that happened, in order.
    ghost history: { Self → List NetEvent };

    /// What the peer sent on a stream and no read has had.
    ghost inbox: { Self → ℕ → List ℕ };

    /// Whether the peer has ended a stream.
    ghost has_ended: { Self → ℕ → Type 0 };

    /// Whether a stream's out-buffer is full.
    ghost is_full: { Self → ℕ → Type 0 };

    /// Begins a connection to an address, and gives its stream, a number never given before.
    fn dial(&mut self, address: &str) -> Dialed
        ensures cause { HasCause (faults self.old) (faults self.new) (result ≡ Dialed.Failed) }

        ensures keeps { Keeps all tells is_open next inbox has_ended self.old self.new }
        ensures stream { IfStream result (IsNewStream (next self.old) (next self.new) (is_open self.new)) }

        ensures told { tells → Adds (dial_events address.now result) (history self.old) (history self.new) }
        ensures fresh { tells → IfStream result (λ s. IsFresh s (history self.old)) };

    /// Sends the front of a piece that is not empty.
    fn write(&mut self, stream: u64, bytes: &[u8]) -> Wrote
        requires is_open { is_open self.old stream }
        requires piece { 0 < length bytes.now }

        ensures within { TakesWithin bytes.now result }
        ensures cause { HasCause (faults self.old) (faults self.new) (result ≡ Wrote.Failed) }

        ensures keeps { Keeps all tells is_open next inbox has_ended self.old self.new }

        ensures told { tells → Adds (write_events stream bytes.now result) (history self.old) (history self.new) }
        ensures full { tells → result ≡ Wrote.NotYet → is_full self.new stream };

    /// Reads what has come into a piece that is not empty. What stands in the piece behind the bytes that it got, and
    /// in all of it at the other answers, is left open.
    fn read(&mut self, stream: u64, into: &mut [u8]) -> Came
        requires is_open { is_open self.old stream }
        requires piece { 0 < length into.old }

        ensures within { GotWithin into.new result }
        ensures cause { HasCause (faults self.old) (faults self.new) (result ≡ Came.Failed) }

        ensures keeps { Keeps (all_but_inbox_of stream) tells is_open next inbox has_ended self.old self.new }

        ensures told { tells → Adds (read_events stream into.new result) (history self.old) (history self.new) }
        ensures inbox { tells → ReadsInbox (inbox self.old stream) (inbox self.new stream) (has_ended self.new stream) into.new result };

    /// Gives a stream back. It takes no memory.
    fn close(&mut self, stream: u64)
        requires { is_open self.old stream }

        ensures cause { faults self.old ≤ faults self.new }

        ensures keeps { Keeps (all_but stream) tells is_open next inbox has_ended self.old self.new }

        ensures told { tells → Adds (close_events stream) (history self.old) (history self.new) };

    /// A count of faults is below 2^64: a greater one would pass for risen whether or not it rose.
    ghost counts: { (net : Self) → faults net < 2 ^ 64 };

    /// An open stream's number was given.
    ghost below: { (net : Self) (t : ℕ) → is_open net t → t < next net };
}
