/// A command at a server, in a step.
#[derive(Clone, Copy, Debug, PartialEq, Eq)]
pub struct At {
    /// The command's number.
    pub op: u32,
    /// The server's number.
    pub host: u32,
    /// The moment of the step, in microseconds.
    pub moment: u64,
}
