use hello_reply::ServerKind;
use host_name::Host;

/// A server that may take the operation, as a picker sees it.
#[derive(Debug, Drop)]
pub struct Candidate {
    /// The server.
    pub host: Host,
    /// What kind of server it is.
    pub kind: ServerKind,
    /// The mean round trip time in microseconds; 0 where none was measured.
    pub mean: u64,
    /// How many operations are in flight.
    pub in_flight: u32,
}
