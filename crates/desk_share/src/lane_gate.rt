use net_link::{Gate, OpenGate};

/// A gate that lanes pass. Its type may say that it is open: then the commands of a lane are stepped one behind another, and it is not
/// passed between them. As the function stands here it is passed around each command.
pub trait LaneGate: Gate {
    /// Whether it never waits, so that it need not be passed.
    fn is_open(&self) -> bool {
        false
    }
}

impl LaneGate for OpenGate {
    fn is_open(&self) -> bool {
        true
    }
}
