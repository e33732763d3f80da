use bson_doc::Rows;
use cmd_build::Command;
use conn_uri::Settings;
use desk_trail::Trail;

/// A whole trail, and what its client was given.
#[derive(Debug, Drop)]
pub struct Parts {
    /// What the client did.
    pub trail: Trail,
    /// Its settings.
    pub settings: Settings,
    /// The commands that it was to run.
    pub commands: Rows<Command>,
}
