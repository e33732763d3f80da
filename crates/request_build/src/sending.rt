use crate::MadeRequest;
use bson_doc::{ClusterTime, Lsid};
use cmd_build::Command;
use cmd_state::RunningCommand;
use conn_uri::Settings;

/// What a command's request is made of.
#[derive(Clone, Copy)]
pub struct Sending<'a> {
    /// The client's settings.
    pub settings: &'a Settings,
    /// The command.
    pub command: &'a Command,
    /// Where it is: it chose a server.
    pub running: &'a RunningCommand,
    /// The id of its session.
    pub lsid: Option<Lsid>,
    /// The greatest cluster time that was seen.
    pub time: Option<&'a ClusterTime>,
}

/// Which command sends, on which stream, and at which place its request stands.
#[derive(Clone, Copy, Debug, PartialEq, Eq)]
pub struct SendAt {
    /// The command's number.
    pub op: u32,
    /// The stream of the connection that is lent to it.
    pub stream: u64,
    /// The place of its request among all.
    pub place: usize,
}

/// What a command sends.
#[derive(Drop)]
pub enum CommandRequest {
    /// Its request.
    Made(MadeRequest),
    /// Nothing: it is larger than its server takes.
    TooLarge {
        /// How many bytes it has.
        size: u64,
        /// How many bytes it may have.
        most: u64,
    },
}
