use conn_uri::Settings;

/// What a command line asks for.
#[derive(Debug, Drop)]
pub enum Task {
    /// `run URI`: to run a script's commands over a deployment.
    Run {
        /// What the connection string gives.
        settings: Settings,
    },
    /// `soak SEED N`: to run commands that a seed gives over members that are played in memory.
    Soak {
        /// The seed.
        seed: u64,
        /// How many commands: from 1 to 100,000.
        count: u32,
    },
}
