use host_name::Host;

/// What a selection came to.
#[derive(Debug, Drop)]
pub enum Picked {
    /// The server that takes the operation.
    Chosen(Host),
    /// No server may take it: none was suitable, or the picker kept none.
    NoneFits,
    /// A known server speaks no wire version that this client speaks (SDAM, Checking wire protocol compatibility).
    Incompatible {
        /// The least of such hosts.
        host: Host,
        /// The least wire version that it speaks.
        min: i32,
        /// The greatest wire version that it speaks.
        max: i32,
    },
    /// There is not enough memory. The picker was not asked.
    Memory,
}
