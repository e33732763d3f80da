/// Four random words for a step: two choose servers, and two make the id of a new session (Server Selection; Driver Sessions).
#[derive(Clone, Copy, Debug, PartialEq, Eq, Drop)]
pub struct Words {
    /// Draws the first of two servers of the latency window.
    pub a: u64,
    /// Draws the second of them.
    pub b: u64,
    /// The first eight bytes of a session's id, the highest first.
    pub c: u64,
    /// Its last eight bytes, the highest first.
    pub d: u64,
}
