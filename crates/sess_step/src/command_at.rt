/// A command, in a step.
#[derive(Clone, Copy, Debug, PartialEq, Eq, Drop)]
pub struct CommandAt {
    /// The command's number.
    pub op: u32,
    /// The moment of the step, in microseconds.
    pub moment: u64,
}
