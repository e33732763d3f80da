ghost use Rattle.std.specs.Prelude.{◌≡◌, ℕ, ◌==◌, ◌||◌, not, if◌then◌else◌, Some, IsSome};
ghost use Rattle.pool_book.specs.declared.connections.Held.{Held};
ghost use Rattle.pool_book.specs.Pool.{Pool, held_of, is_closed, is_worthless};
ghost use Rattle.pool_book.specs.Entries as entry;
ghost use Rattle.pool_book.specs.Judge.{Goes};
ghost use Rattle.pool_book.specs.Answers.{settled_answer, fate_answer};

use crate::rules::{is_worthless, shut_reason};
use crate::{Available, Fate, PoolBook, Settled};

impl PoolBook {
    /// A pending connection is established (CMAP, Establishing a Connection): whoever dialled it has it, or it is gone.
    pub fn established(&mut self, conn: u64) -> Settled
        requires { IsSome (held_of conn self.old.pending) }
        ensures answer { (h : Held) → held_of conn self.old.pending ≡ Some h → result ≡ settled_answer self.old h }
        ensures goes { (h : Held) → held_of conn self.old.pending ≡ Some h → (moment : ℕ)
            → Goes self.old moment (entry.Settled h.ticket conn (is_worthless self.old.state self.old.generation h.generation)) self.new }
    {
        let Some(held) = self.pending.take_out(conn, self.last_rows.row_of(conn)) else {
            unreachable!();
        };
        if is_worthless(self.state, self.generation, held.generation) {
            self.last_rows.forget(conn);
            return Settled::Stale {
                generation: self.generation,
            };
        }
        self.lent.put(held, &mut self.last_rows);
        Settled::Lent
    }

    /// A pending connection came to nothing (CMAP, Establishing a Connection): it is gone, to be shut as `Errored`.
    pub fn lost(&mut self, conn: u64)
        requires { IsSome (held_of conn self.old.pending) }
        ensures { (h : Held) → held_of conn self.old.pending ≡ Some h → (moment : ℕ)
            → Goes self.old moment (entry.NotLent h.ticket (entry.Lost conn)) self.new }
    {
        self.pending.take_out(conn, self.last_rows.row_of(conn));
        self.last_rows.forget(conn);
    }

    /// A lent connection comes back (CMAP, Checking In a Connection): it is available again, unless it failed, the pool
    /// is closed or the pool was cleared since it was dialled.
    pub fn check_in(&mut self, conn: u64, moment: u64, errored: bool) -> Fate
        requires { IsSome (held_of conn self.old.lent) }
        ensures answer { (h : Held) → held_of conn self.old.lent ≡ Some h → result ≡ fate_answer self.old errored h }
        ensures goes { (h : Held) → held_of conn self.old.lent ≡ Some h
            → Goes self.old moment (entry.CheckedIn h.ticket conn errored) self.new }
    {
        let Some(held) = self.lent.take_out(conn, self.last_rows.row_of(conn)) else {
            unreachable!();
        };
        if errored || is_worthless(self.state, self.generation, held.generation) {
            self.last_rows.forget(conn);
            return Fate::Shut(shut_reason(self.state, errored));
        }
        self.available.put(Available {
            conn: held.conn,
            generation: held.generation,
            since: moment,
        });
        Fate::Kept
    }
}
