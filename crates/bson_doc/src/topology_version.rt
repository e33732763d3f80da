use crate::Oid;

/// A server's topologyVersion (Server Discovery and Monitoring): which process of a server it was, and how often its
/// state has changed. Counters are comparable only where the processes are equal.
#[derive(Clone, Copy, Debug, PartialEq, Eq, Drop)]
pub struct TopologyVersion {
    /// processId.
    pub process: Oid,
    /// counter.
    pub counter: i64,
}
