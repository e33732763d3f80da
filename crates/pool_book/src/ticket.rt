/// A check-out's place in a pool's line.
///
/// A book knows a ticket by its number; the generation and the moment are those that it had as it entered.
#[derive(Clone, Copy, Debug, PartialEq, Eq)]
pub struct Ticket {
    /// Numbers count from 0 and none is given twice.
    pub number: u64,
    /// The pool's generation as the ticket entered.
    pub generation: u64,
    /// The moment at which the ticket entered.
    pub entered: u64,
}
