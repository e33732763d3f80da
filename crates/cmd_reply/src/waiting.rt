/// A request whose answer is waited for.
#[derive(Clone, Copy, Debug, PartialEq, Eq, Drop)]
pub struct Waiting {
    /// Its id, to which the answer is (responseTo).
    pub id: i32,
    /// The moment until which it is waited for, in microseconds.
    pub limit: u64,
}
