//! The pool of a server, by what its checks tell (CMAP, Connection Pool).
ghost use Rattle.std.specs.Prelude.{◌≡◌, ◌<◌, ◌-◌, ◌^◌, [], false, true};
ghost use Rattle.pool_book.specs.Entries as pool;
ghost use Rattle.pool_book.specs.Pool.{is_closed, is_paused};
ghost use Rattle.desk_trail.specs.Pools.{with_pool};
ghost use Rattle.server_state.specs.PoolMoves.{behind_group};

use crate::Server;

impl Server {
    /// Its pool is made ready, where it is paused.
    pub fn ready_pool(&mut self, moment: u64)
        requires { is_paused self.old.pool.state.state ≡ true }
        ensures ready { self.new ≡ with_pool moment pool.Ready self.old }
    {
        self.pool.ready();
    }

    /// Its pool is cleared.
    pub fn clear_pool(&mut self, moment: u64)
        requires { self.old.pool.state.generation < 2 ^ 64 - 1 }
        ensures cleared { self.new ≡ with_pool moment pool.Clear self.old }
    {
        self.pool.clear();
    }

    /// Its pool is closed; each connection that was available ([`Server::available`]) is to be shut as `PoolClosed`.
    pub fn shut_pool(&mut self, moment: u64)
        requires is_open { is_closed self.old.pool.state.state ≡ false }
        ensures shut { self.new ≡ behind_group moment pool.Shut self.old }
        ensures alone { self.old.pool.state.available ≡ [] → self.new ≡ with_pool moment pool.Shut self.old }
    {
        self.pool.close();
    }
}
