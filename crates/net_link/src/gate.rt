/// Where in a lane's command a gate is passed.
#[derive(Clone, Copy, Debug, PartialEq, Eq)]
pub enum Phase {
    /// Before the command's first step.
    Before,
    /// Behind the command's last step.
    After,
}

/// What a lane passes before and after each of its commands, outside the client's lock.
pub trait Gate {
    /// Lets the lane go on with, or leave, its command of that number. It may wait.
    fn pass(&self, lane: u32, op: u32, phase: Phase);
}

/// A gate that never waits.
#[derive(Clone, Copy, Debug, Default, PartialEq, Eq)]
pub struct OpenGate;

impl Gate for OpenGate {
    fn pass(&self, _lane: u32, _op: u32, _phase: Phase) {}
}
