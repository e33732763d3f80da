use bson_doc::Rows;
use cmd_build::Command;
use conn_uri::Settings;
use desk_trail::Trail;

/// What is left of a desk that ended.
#[derive(Drop)]
pub struct Finished<N, P> {
    /// The net, in which all streams are closed.
    pub net: N,
    /// All that the desk did.
    pub trail: Trail,
    /// The settings that it was given.
    pub settings: Settings,
    /// The commands that it was given.
    pub commands: Rows<Command>,
    /// The picker that it was given, as its looks left it.
    pub picker: P,
    /// Whether it stopped for want of memory: then its trail may end where more had to follow.
    pub stopped: bool,
}

/// What a desk was to go by, where there was no memory to make one.
#[derive(Drop)]
pub struct Returned<N, P> {
    /// The net as it was.
    pub net: N,
    /// The picker as it was.
    pub picker: P,
}
