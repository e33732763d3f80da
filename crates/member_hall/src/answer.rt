use crate::tail::Tail;

/// An answer that was made: from which turn on it can be read, and what is left of its bytes.
#[derive(Debug, Drop)]
pub struct Answer {
    pub due: u64,
    pub bytes: Tail,
}
