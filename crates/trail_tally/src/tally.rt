use write_retry::Outcome;

/// What a trail says of one command: how many of its attempts ended, and its answer, where it was answered.
#[derive(Clone, Copy, Debug, PartialEq, Eq, Drop)]
pub struct Tally {
    /// How many of its attempts ended.
    pub attempts: u64,
    /// How it was answered.
    pub answer: Option<Outcome>,
}
