use crate::ScriptKind;

/// Why the reading of a line stopped.
#[derive(Debug, Drop)]
pub enum LineStop {
    /// The line's fault.
    Fault(ScriptKind),
    /// There is not enough memory.
    Memory,
}
