use crate::Entry;

/// An entry of a trail, and its moment.
#[derive(Debug, Drop)]
pub struct Step {
    /// The moment, in microseconds.
    pub moment: u64,
    /// What happened.
    pub entry: Entry,
}
