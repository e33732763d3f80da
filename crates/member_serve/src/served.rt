use msg_wire::MsgFault;

/// What a turn of a connection did.
#[derive(Debug, Drop)]
pub enum Served {
    /// A request came whole and was answered; its answer is unsent yet, and the next turn sends it.
    Answered,
    /// The net takes no more of the last answer now, or the next request is not there whole.
    NotYet,
    /// The client ended the stream; the connection is over.
    End,
    /// The stream failed; the connection is over.
    Fault,
    /// What came is no message, for this fault of the bytes; the connection is over. It is neither `Short` nor `Memory`.
    Bad(MsgFault),
    /// There was no memory for it.
    Memory,
}
