/// What a stream is for.
#[derive(Clone, Copy, Debug, PartialEq, Eq, Drop)]
pub enum StreamUse {
    /// Checks of the server (Server Monitoring).
    Check { host: u32 },
    /// A connection of the server's pool (CMAP).
    Conn { host: u32, conn: u64 },
}
