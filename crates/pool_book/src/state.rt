/// A pool's state (CMAP, Connection Pool). The diagram of its changes stands on [`PoolBook`](crate::PoolBook).
#[derive(Clone, Copy, Debug, PartialEq, Eq)]
pub enum PoolState {
    /// Gives out no connection until it is made ready.
    Paused,
    /// Gives out connections.
    Ready,
    /// Gives out no connection any more.
    Closed,
}
