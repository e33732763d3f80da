use cmd_build::Command;
use cmd_state::RunningCommand;
use conn_uri::Settings;
use server_state::Server;
use topo_rules::Topology;

/// What of a client a look goes by.
#[derive(Clone, Copy)]
pub struct Input<'a> {
    /// The client's settings.
    pub settings: &'a Settings,
    /// Its topology.
    pub topology: &'a Topology,
    /// All servers that were ever named, by number.
    pub servers: &'a [Server],
    /// How many commands are in flight at each of them, by number (Server Selection, operationCount).
    pub in_flight: &'a [u32],
}

/// Which command looks, when, and with which words of the choice of two.
#[derive(Clone, Copy)]
pub struct Asking<'a> {
    /// The command.
    pub command: &'a Command,
    /// Where it is.
    pub running: &'a RunningCommand,
    /// The moment of the look, in microseconds.
    pub moment: u64,
    /// The words that draw two of the servers in the latency window.
    pub words: (u64, u64),
}
