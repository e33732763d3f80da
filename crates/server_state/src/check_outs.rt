//! A server's connections: a command enters the pool's line, is answered, dials, has the connection established and gives it
//! back (CMAP, Checking Out a Connection, Establishing a Connection, Checking In a Connection).
ghost use Rattle.std.specs.Prelude.{◌≡◌, ℕ, ◌+◌, ◌<◌, ◌≤◌, ◌-◌, ◌^◌, true, None, Some, ◌∷◌, length, IfNone, IfOk, IfSome, IsSome, OnErr, OnOk, OnSome};
ghost use Rattle.pool_book.specs.Answers.{answer_due, fate_answer, settled_answer, swept_answer};
ghost use Rattle.pool_book.specs.declared.connections.Held.{Held};
ghost use Rattle.pool_book.specs.declared.ticket.Ticket.{Ticket as TicketState};
ghost use Rattle.pool_book.specs.Entries as pool;
ghost use Rattle.pool_book.specs.Pool.{held_of, is_swept, is_worthless, ticket_of};
ghost use Rattle.desk_trail.specs.States.{ServerState, stream_of};
ghost use Rattle.server_state.specs.PoolMoves.{AnswersBy, MovesBy};

use crate::{Memory, Server};
use pool_book::{Fate, Settled, Swept, Take, Ticket};

impl Server {
    /// A ticket joins the line of its pool, with all memory that its later calls need. Where there is none, all stays as it was.
    pub fn enter(&mut self, moment: u64) -> Result<Ticket, Memory>
        requires { self.old.pool.state.entered < 2 ^ 64 - 1 }
        ensures ticket { IfOk result (λ t. t ≡ pool.ticket_for self.old.pool.state moment) }
        ensures ok { OnOk result (MovesBy moment (pool.Entered self.old.pool.state.entered) self.old self.new) }
        ensures err { OnErr result (self.new ≡ self.old) }
    {
        self.streams.reserve(self.waits + 1)?;
        let ticket = self.pool.enter(moment)?;
        self.waits += 1;
        Ok(ticket)
    }

    /// Takes one perished connection out of those that are available, to be shut; None exactly where none has perished.
    pub fn sweep(&mut self, moment: u64) -> Option<Swept>
        ensures answer { result ≡ swept_answer self.old.pool.state moment }
        ensures some { IfSome result (λ s. MovesBy moment (pool.ConnShut s.conn s.reason) self.old self.new) }
        ensures none { IfNone result ((is_swept self.old.pool.state moment ≡ true) × (self.new ≡ self.old)) }
        ensures fewer { OnSome result (length self.new.pool.state.available + 1 ≤ length self.old.pool.state.available) }
    {
        self.pool.sweep(moment)
    }

    /// What a ticket of the line gets, of a pool that is swept. Of a connection that is to be dialled the stream is kept by
    /// [`Server::keep_stream`], where there is one.
    pub fn take(&mut self, ticket: &Ticket, moment: u64) -> Take
        requires waits { IsSome (ticket_of ticket.now.number self.old.pool.state.waiting) }
        requires swept { is_swept self.old.pool.state moment ≡ true }
        ensures answer { (t : TicketState) → ticket_of ticket.now.number self.old.pool.state.waiting ≡ Some t
            → result ≡ answer_due self.old.pool.state moment t }
        ensures goes { AnswersBy moment ticket.now.number result self.old self.new }
        ensures streamless { (conn : ℕ) → result ≡ Take.Dial conn → (conn ≡ self.new.pool.state.dialled) × (stream_of self.new conn ≡ None) }
    {
        let answer = self.pool.try_take(ticket, moment);
        match answer {
            Take::Wait => {}
            Take::Dial { .. } => {
                self.waits -= 1;
                self.streams.push_reserved(None);
            }
            Take::Lent { .. } | Take::Cleared { .. } | Take::Closed | Take::Late => self.waits -= 1,
        }
        answer
    }

    /// The connection that was dialled last has this stream.
    pub fn keep_stream(&mut self, stream: u64)
        requires dialled { 0 < self.old.pool.state.dialled }
        requires none { stream_of self.old self.old.pool.state.dialled ≡ None }
        ensures kept { self.new ≡ record self.old { conn_streams = record { conn = self.old.pool.state.dialled; stream = stream } ∷ self.old.conn_streams } }
    {
        let last = self.streams.len() - 1;
        self.streams[last] = Some(stream);
    }

    /// A pending connection is established: it is lent to whoever dialled it, or it is to be shut.
    pub fn established(&mut self, conn: u64, moment: u64) -> Settled
        requires { IsSome (held_of conn self.old.pool.state.pending) }
        ensures answer { (h : Held) → held_of conn self.old.pool.state.pending ≡ Some h → result ≡ settled_answer self.old.pool.state h }
        ensures goes { (h : Held) → held_of conn self.old.pool.state.pending ≡ Some h
            → MovesBy moment (pool.Settled h.ticket conn (is_worthless self.old.pool.state.state self.old.pool.state.generation h.generation)) self.old self.new }
    {
        self.pool.established(conn)
    }

    /// A pending connection came to nothing: it is to be shut as `Errored`.
    pub fn lost(&mut self, conn: u64, moment: u64)
        requires { IsSome (held_of conn self.old.pool.state.pending) }
        ensures goes { (h : Held) → held_of conn self.old.pool.state.pending ≡ Some h
            → MovesBy moment (pool.NotLent h.ticket (pool.Lost conn)) self.old self.new }
    {
        self.pool.lost(conn);
    }

    /// A lent connection comes back: it is available again, or it is to be shut.
    pub fn check_in(&mut self, conn: u64, moment: u64, errored: bool) -> Fate
        requires { IsSome (held_of conn self.old.pool.state.lent) }
        ensures answer { (h : Held) → held_of conn self.old.pool.state.lent ≡ Some h → result ≡ fate_answer self.old.pool.state errored h }
        ensures goes { (h : Held) → held_of conn self.old.pool.state.lent ≡ Some h
            → MovesBy moment (pool.CheckedIn h.ticket conn errored) self.old self.new }
    {
        self.pool.check_in(conn, moment, errored)
    }
}
