/// What a member does with its next write request, in place of handling and answering it.
#[derive(Clone, Copy, Debug, PartialEq, Eq)]
pub enum Rule {
    /// It is never handled, and its stream ends.
    Drop,
    /// It is handled, its answer is lost, and its stream ends.
    Mute,
    /// It is handled so many turns later, and its stream ends now.
    Late {
        turns: u64,
    },
    /// It is refused with that error.
    Refuse {
        code: i32,
        retryable: bool,
        no_writes: bool,
    },
}
