ghost use Rattle.std.specs.Prelude.{◌≡◌};

use crate::{CloseReason, PoolState};

/// What a pool keeps to (CMAP, Connection Pool Options). Moments and spans are microseconds.
#[derive(Clone, Copy, Debug, PartialEq, Eq)]
pub struct PoolRules {
    /// How many connections there may be, pending, lent and available together: `maxPoolSize`. At least 1.
    pub max_size: u32,
    /// How many connections may be pending: `maxConnecting`. At least 1.
    pub max_connecting: u32,
    /// How long a connection may be available before it has perished: `maxIdleTimeMS`. 0: without end.
    pub idle_micros: u64,
    /// How long a ticket may wait: `waitQueueTimeoutMS`. 0: without end.
    pub wait_micros: u64,
}

impl PoolRules {
    ghost use Rattle.pool_book.specs.Pool.{is_idle, is_late, may_dial};

    /// Whether a connection that is available since `since` has been so for longer than the rules allow.
    pub(crate) fn is_idle(&self, since: u64, moment: u64) -> bool
        ensures { result ≡ is_idle self.now since moment }
    {
        self.idle_micros != 0 && moment > since && moment - since > self.idle_micros
    }

    /// Whether a ticket that entered at `entered` has waited as long as the rules allow.
    pub(crate) fn is_late(&self, entered: u64, moment: u64) -> bool
        ensures { result ≡ is_late self.now entered moment }
    {
        self.wait_micros != 0 && moment >= entered && moment - entered >= self.wait_micros
    }

    /// Whether there is room to dial, where there are `all` connections of which `pending` are pending.
    pub(crate) fn may_dial(&self, all: usize, pending: usize) -> bool
        ensures { result ≡ may_dial self.now all pending }
    {
        all < self.max_size as usize && pending < self.max_connecting as usize
    }
}

ghost use Rattle.pool_book.specs.Pool.{is_stale, is_worthless, is_cleared, perish_reason, shut_reason};

/// Whether a connection of this generation is stale in a pool of that.
pub(crate) fn is_stale(of_pool: u64, of_conn: u64) -> bool
    ensures { result ≡ is_stale of_pool of_conn }
{
    of_conn != of_pool
}

/// Whether a pending or lent connection is of no more use to a pool of this state and generation.
pub(crate) fn is_worthless(state: PoolState, of_pool: u64, of_conn: u64) -> bool
    ensures { result ≡ is_worthless state of_pool of_conn }
{
    state == PoolState::Closed || is_stale(of_pool, of_conn)
}

/// Whether a ticket gets nothing in a pool that is not closed.
pub(crate) fn is_cleared(state: PoolState, of_pool: u64, of_ticket: u64) -> bool
    ensures { result ≡ is_cleared state of_pool of_ticket }
{
    state == PoolState::Paused || of_ticket < of_pool
}

/// Why a perished connection is shut.
pub(crate) fn perish_reason(of_pool: u64, of_conn: u64) -> CloseReason
    ensures { result ≡ perish_reason of_pool of_conn }
{
    if is_stale(of_pool, of_conn) {
        CloseReason::Stale
    } else {
        CloseReason::Idle
    }
}

/// Why a connection that is not kept is shut.
pub(crate) fn shut_reason(state: PoolState, errored: bool) -> CloseReason
    ensures { result ≡ shut_reason state errored }
{
    if errored {
        CloseReason::Errored
    } else if state == PoolState::Closed {
        CloseReason::PoolClosed
    } else {
        CloseReason::Stale
    }
}
