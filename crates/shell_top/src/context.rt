use net_link::{Clock, Gate};
use std::alloc::Global;
use std::sync::Wait;

/// What all calls of a run share: the runtime, an allocator, the clock and the gate.
#[derive(Drop)]
pub struct Context<'a, R: Wait, C: Clock, G: Gate> {
    /// The runtime, for waiting.
    pub rt: &'a R,
    /// The allocator.
    pub alloc: Global,
    /// The clock.
    pub clock: &'a C,
    /// The gate that each command passes ahead of its first step and behind its last.
    pub gate: &'a G,
}
