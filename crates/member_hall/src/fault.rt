/// Why there is no hall.
#[derive(Clone, Copy, Debug, PartialEq, Eq)]
pub enum HallFault {
    /// The list of hosts is empty.
    NoMember,
    /// The host at that place of the list, the first such one, stands before it too.
    Twice { host: u32 },
    /// The act at that place of the list, the first such one, is of a host that is not there.
    Act { place: u64 },
    /// There was no memory for it.
    Memory,
}
