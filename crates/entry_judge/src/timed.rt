/// An entry and its moment.
#[derive(Clone, Copy, Debug, PartialEq, Eq)]
pub struct Timed<E> {
    /// The moment, in microseconds.
    pub at: u64,
    /// The entry.
    pub what: E,
}
