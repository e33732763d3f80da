/// What a step came to.
#[derive(Clone, Copy, Debug, PartialEq, Eq, Drop)]
pub enum Sight {
    /// What was asked for is done: of a check, none of the server is due or runs.
    Answered,
    /// The net has nothing more now; `until` is the moment until which it is waited for, in microseconds.
    Wait { until: u64 },
    /// A further step goes on at once.
    Again,
}

/// A server whose check is due or runs, and when it is due, in microseconds.
#[derive(Clone, Copy, Debug, PartialEq, Eq, Drop)]
pub struct Due {
    /// The server's number.
    pub host: u32,
    /// When its check is due; of one that runs, the moment of the last step.
    pub at: u64,
}
