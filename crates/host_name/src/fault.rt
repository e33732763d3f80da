use thiserror::Error;

/// Why a text is no host. The first that applies is told, in this order.
#[derive(Clone, Copy, Debug, PartialEq, Eq, Error)]
pub enum HostFault {
    /// An opening bracket in the name has no closing one, or something other than a colon stands behind that.
    #[error("a bracket in the host's name is not closed, or not followed by a colon")]
    Bracket,
    /// There is no name, or nothing between its brackets.
    #[error("the host has no name")]
    Empty,
    /// The port is not one to five digits with a value from 1 to 65535.
    #[error("the host's port is no number from 1 to 65535")]
    Port,
    /// Want of memory: the text is a host.
    #[error("out of memory")]
    Memory,
}
