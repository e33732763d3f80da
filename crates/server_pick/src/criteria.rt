use host_name::Host;
use read_pref::ReadPref;

/// What an operation does.
#[derive(Clone, Copy)]
pub enum Need<'a> {
    /// It writes.
    Write,
    /// It reads, by this preference.
    Read(&'a ReadPref),
}

/// What a server is selected by.
#[derive(Clone, Copy)]
pub struct Criteria<'a> {
    /// What the operation does.
    pub need: Need<'a>,
    /// The server that is left out of a sharded cluster where another one may take the operation (Server Selection,
    /// deprioritized servers).
    pub avoid: Option<&'a Host>,
    /// How much longer than the least mean a mean within the latency window is, at most, in microseconds (Server Selection,
    /// localThresholdMS).
    pub threshold_micros: u64,
}
