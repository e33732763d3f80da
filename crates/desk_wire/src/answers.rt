use msg_wire::{Message, MsgFault};

/// The answer of [`Wire::push`](crate::Wire::push).
#[derive(Clone, Copy, Debug, PartialEq, Eq)]
pub enum Pushed {
    /// All that was unsent is sent.
    Done,
    /// The net takes no more now; bytes are unsent.
    NotYet,
    /// The stream failed; the wire is shut.
    Fault,
    /// There was no memory for it; the net may have taken some of the bytes.
    Memory,
}

/// The answer of [`Wire::pull`](crate::Wire::pull).
#[derive(Debug, Drop)]
pub enum Pulled {
    /// The next message.
    Whole(Message),
    /// It is not there whole yet, and the net has no more now.
    NotYet,
    /// The peer ended the stream before it was there whole; the wire is shut.
    End,
    /// The stream failed; the wire is shut.
    Fault,
    /// What came is no message, for this fault of the bytes; the wire is shut. It is neither `Short` nor `Memory`.
    Bad(MsgFault),
    /// There was no memory for it; what came is held.
    Memory,
}
