/// What kind of server it is (SDAM, ServerDescription, type).
///
/// The standard's PossiblePrimary and LoadBalancer are not in use here.
#[derive(Clone, Copy, Debug, PartialEq, Eq)]
pub enum ServerKind {
    /// Nothing is known of it: no reply yet, or none since it failed, or its reply says that hello failed.
    Unknown,
    /// A server that is no member of a replica set and no router.
    Standalone,
    /// A router of a sharded cluster.
    Mongos,
    /// The member of a replica set that takes writes.
    Primary,
    /// A member that follows the primary and may be read from.
    Secondary,
    /// A member that votes and has no data.
    Arbiter,
    /// A member in another state: it starts up, recovers or is hidden.
    Other,
    /// A server that was started for a replica set and is in none yet.
    Ghost,
}
