/// How many names, events, sessions, requests and steps.
#[derive(Clone, Copy, Debug, PartialEq, Eq, Drop)]
pub struct Room {
    /// Names of hosts.
    pub names: usize,
    /// Events that are offered to the topology.
    pub events: usize,
    /// Ids of sessions.
    pub sessions: usize,
    /// Requests.
    pub requests: usize,
    /// Entries.
    pub steps: usize,
}
