/// The kind of a topology (SDAM, TopologyType).
#[derive(Clone, Copy, Debug, PartialEq, Eq, Drop)]
pub enum TopoKind {
    /// One server, whatever its kind: a direct connection, or a standalone that was the only seed.
    Single,
    /// A replica set of which no primary is known: ReplicaSetNoPrimary.
    NoPrimary,
    /// A replica set with a primary: ReplicaSetWithPrimary.
    WithPrimary,
    /// Routers of a sharded cluster.
    Sharded,
    /// Nothing is known yet.
    Unknown,
}
