use bson_doc::{Bytes, Text};

/// What happened on a net: what a call of its own did, or what a member did that the net plays.
#[derive(Debug, Drop)]
pub enum NetEvent {
    /// `dial` began a connection to the address and gave this stream.
    Dialled {
        stream: u64,
        address: Text,
    },
    /// `dial` failed.
    NoDial {
        address: Text,
    },
    /// `write` took these bytes.
    Out {
        stream: u64,
        bytes: Bytes,
    },
    /// `read` gave these bytes.
    Came {
        stream: u64,
        bytes: Bytes,
    },
    /// `read` said that the peer ended.
    Ended {
        stream: u64,
    },
    /// `read` or `write` failed.
    Fault {
        stream: u64,
    },
    /// `close` had the stream.
    Closed {
        stream: u64,
    },
    /// `read` answered that nothing had come yet.
    Dry {
        stream: u64,
    },
    /// `write` answered that the out-buffer was full.
    Full {
        stream: u64,
    },
    /// A member handled the stream's request of that number, counted from 0.
    Handled {
        member: u32,
        stream: u64,
        nth: u64,
        effect: Effect,
    },
    /// A member was elected.
    Elected {
        member: u32,
    },
    /// A member followed the elected one.
    Followed {
        member: u32,
    },
}

/// What handling a request did to a member's log.
#[derive(Clone, Copy, Debug, PartialEq, Eq)]
pub enum Effect {
    /// A write took effect.
    Added,
    /// A write's result was known already, and was answered again.
    Known,
    /// A request was refused.
    Refused,
    /// A request that writes nothing.
    Nothing,
}
