/// Where a request stands, and when it is served.
#[derive(Clone, Copy, Debug)]
pub struct Place {
    /// Its stream.
    pub stream: u64,
    /// Its number on the stream, counted from 0.
    pub nth: u64,
    /// The member that it came to.
    pub member: u32,
    /// The turn.
    pub turn: u64,
    /// Whether that member was elected last.
    pub lead: bool,
}
