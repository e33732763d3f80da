ghost use Rattle.std.specs.Prelude.{◌≡◌, ◌≤◌, ◌^◌, ◌&&◌, ◌==◌, ℕ, [], find, not, false, IfNone, IfSome, is_some};
ghost use Rattle.std.specs.Option.{option_map};
ghost use Rattle.host_name.specs.Addresses.{is_same_address};
ghost use Rattle.pool_book.specs.Answers.{IsWaitLimit};
ghost use Rattle.pool_book.specs.Pool.{held_of, is_closed, is_paused, is_perished, ticket_of};
ghost use Rattle.watch_step.specs.Checks.{IsInRange};
ghost use Rattle.desk_trail.specs.Clients.{Client, beat, pool_rules};
ghost use Rattle.desk_trail.specs.States.{fresh_server, stream_of};
ghost use Rattle.server_state.specs.Inside.{streams_from};

use host_name::Host;
use pool_book::{Available, Held, PoolBook, PoolRules, PoolState, Ticket};
use std::alloc::Global;
use std::marker::Model;
use watch_step::Watch;

/// One stay of a server in the topology: its address, when it was named and whether it left; its pool, with the streams of its
/// connections; and its checks, with the stream of the one that runs or that the next one goes on with, and when the one that
/// runs was last seen without an answer.
#[derive(Debug, Drop)]
pub struct Server {
    pub(crate) host: Host,
    pub(crate) named: u64,
    pub(crate) has_left: bool,
    pub(crate) pool: PoolBook,
    // How many tickets wait, and of each connection that was dialled, in order, its stream.
    pub(crate) waits: usize,
    pub(crate) streams: Vec<Option<u64>>,
    pub(crate) watch: Watch,
    pub(crate) check_stream: Option<u64>,
    pub(crate) hello: i32,
    pub(crate) dry: Option<u64>,
}

impl Model for Server {
    ghost use Rattle.desk_trail.specs.States.{ServerState};
    ghost use Rattle.server_state.specs.Inside.{IsKept, state_of};

    ghost Value = { ServerState };

    ghost view = { state_of };

    ghost invariant = { IsKept };
}

impl Server {
    /// A server that is named at a moment, with a pool of these rules and an interval of checks in microseconds. It takes no
    /// memory.
    pub fn new(alloc: Global, host: Host, rules: PoolRules, beat_micros: u64, moment: u64) -> Server
        requires size { 1 ≤ rules.max_size }
        requires connecting { 1 ≤ rules.max_connecting }
        requires beat { beat_micros ≤ 2 ^ 42 }
        requires moment { moment ≤ 2 ^ 62 }
        ensures server { (client : Client) → rules ≡ pool_rules client → beat_micros ≡ beat client → result ≡ fresh_server client moment host }
        ensures beat { result.checks.beat ≡ beat_micros }
    {
        Server {
            host,
            named: moment,
            has_left: false,
            pool: PoolBook::new(alloc, rules),
            waits: 0,
            streams: Vec::new(alloc),
            watch: Watch::new(beat_micros, moment),
            check_stream: None,
            hello: 0,
            dry: None,
        }
    }

    /// Its address.
    pub fn host(&self) -> &Host
        ensures address { result.now ≡ self.now.address }
    {
        &self.host
    }

    /// Whether it stands in the topology with that address.
    pub fn is_at(&self, host: &Host) -> bool
        ensures at { result ≡ (not self.now.has_left && is_same_address self.now.address host.now) }
    {
        !self.has_left && self.host == *host
    }

    /// When it was named, in microseconds.
    pub fn named(&self) -> u64
        ensures named { result ≡ self.now.named }
    {
        self.named
    }

    /// Whether it left the topology.
    pub fn has_left(&self) -> bool
        ensures left { result ≡ self.now.has_left }
    {
        self.has_left
    }

    /// Its pool's generation.
    pub fn generation(&self) -> u64
        ensures generation { result ≡ self.now.pool.state.generation }
    {
        self.pool.generation()
    }

    /// Whether its pool is paused.
    pub fn is_paused(&self) -> bool
        ensures paused { result ≡ is_paused self.now.pool.state.state }
    {
        self.pool.state() == PoolState::Paused
    }

    /// Whether its pool is closed.
    pub fn is_closed(&self) -> bool
        ensures closed { result ≡ is_closed self.now.pool.state.state }
    {
        self.pool.state() == PoolState::Closed
    }

    /// The connections of its pool that are available, in the order in which they were checked in.
    pub fn available(&self) -> &[Available]
        ensures available { result.now ≡ self.now.pool.state.available }
    {
        self.pool.available()
    }

    /// Whether a connection of its pool that is available has perished at a moment (CMAP, a connection is perished).
    pub fn is_perished(&self, available: &Available, moment: u64) -> bool
        ensures perished { result ≡ is_perished self.now.pool.state moment available.now }
    {
        self.pool.is_perished(available, moment)
    }

    /// The number of the next ticket of its pool.
    pub fn entered(&self) -> u64
        ensures entered { result ≡ self.now.pool.state.entered }
    {
        self.pool.entered()
    }

    /// Whether the ticket waits in the line of its pool.
    pub fn is_waiting(&self, ticket: &Ticket) -> bool
        ensures waiting { result ≡ is_some (ticket_of ticket.now.number self.now.pool.state.waiting) }
    {
        self.pool.is_waiting(ticket)
    }

    /// Until when the ticket of a number waits at most in the line of its pool, in microseconds (CMAP, waitQueueTimeoutMS). None
    /// where no ticket of that number waits, or past u64's greatest number.
    pub fn wait_limit(&self, number: u64) -> Option<u64>
        ensures until { IfSome result (λ until. IsWaitLimit self.now.pool.state number until) }
        ensures none { IfNone result ((until : ℕ) → IsWaitLimit self.now.pool.state number until → 2 ^ 64 ≤ until) }
    {
        self.pool.wait_limit(number)
    }

    /// Whether the connection was dialled and is not established yet.
    pub fn is_pending(&self, conn: u64) -> bool
        ensures pending { result ≡ is_some (held_of conn self.now.pool.state.pending) }
    {
        self.pool.is_pending(conn)
    }

    /// Whether the connection is lent.
    pub fn is_lent(&self, conn: u64) -> bool
        ensures lent { result ≡ is_some (held_of conn self.now.pool.state.lent) }
    {
        self.pool.is_lent(conn)
    }

    /// A connection that was dialled and is not established yet, with its ticket and its generation; None where it is not.
    pub fn find_pending(&self, conn: u64) -> Option<Held>
        ensures held { result ≡ held_of conn self.now.pool.state.pending }
    {
        self.pool.find_pending(conn)
    }

    /// A connection that is lent, with its ticket and its generation; None where it is not.
    pub fn find_lent(&self, conn: u64) -> Option<Held>
        ensures held { result ≡ held_of conn self.now.pool.state.lent }
    {
        self.pool.find_lent(conn)
    }

    /// The stream of a connection of its pool; None of a number that was not dialled, and where the dial failed.
    pub fn stream_of(&self, conn: u64) -> Option<u64>
        ensures stream { result ≡ stream_of self.now conn }
    {
        stream_at(self.streams.as_slice(), conn)
    }

    /// When the check that runs began; None where none runs.
    pub fn began(&self) -> Option<u64>
        requires { self.now.has_left ≡ false }
        ensures value { result ≡ self.now.checks.began }
        ensures bound { IsInRange result }
    {
        self.watch.began()
    }

    /// When its next check is due, in microseconds; while one runs, when it was due.
    pub fn due(&self) -> u64
        requires { self.now.has_left ≡ false }
        ensures due { result ≡ self.now.checks.due }
    {
        self.watch.due()
    }

    /// When its last check ended; None where none did.
    pub fn ended(&self) -> Option<u64>
        ensures value { result ≡ self.now.checks.ended }
        ensures bound { IsInRange result }
    {
        self.watch.ended()
    }

    /// When the check that runs was last seen without an answer; None where it was not.
    pub fn dry(&self) -> Option<u64>
        ensures dry { result ≡ self.now.dry }
    {
        self.dry
    }

    /// The stream of the check that runs, or that the next one goes on with.
    pub fn check_stream(&self) -> Option<u64>
        ensures stream { result ≡ self.now.check_stream }
    {
        self.check_stream
    }

    /// The id of the hello of the check that runs.
    pub fn hello(&self) -> i32 {
        self.hello
    }
}

/// What stands at a connection's place, counted from 1.
fn stream_at(streams: &[Option<u64>], conn: u64) -> Option<u64>
    ensures { result ≡ option_map (λ l. l.stream) (find (λ l. l.conn == conn) (streams_from 1 streams.now [])) }
{
    if conn == 0 {
        return None;
    }
    match streams.get(conn as usize - 1) {
        Some(stream) => *stream,
        None => None,
    }
}
