use legal_trail::Parts;

/// What is left of a trail that is not written any more.
#[derive(Drop)]
pub struct Finished<N> {
    /// The net, in which each stream that was in use is closed.
    pub net: N,
    /// The trail, and what its client was given.
    pub parts: Parts,
}
