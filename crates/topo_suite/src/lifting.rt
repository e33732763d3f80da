//! The wire versions of files that are older than the profile.

/// The least greatest wire version that the tests' drivers accept (server 3.6).
const OLD: i32 = 6;

/// The least wire version of the profile.
const LEAST: i32 = 13;

/// The greatest wire version as it is read: the profile's least in place of one that the tests' drivers accept.
pub fn lifted(max_wire: i32) -> i32 {
    if is_lifted(max_wire) { LEAST } else { max_wire }
}

/// Whether another version is read in its place.
pub fn is_lifted(max_wire: i32) -> bool {
    OLD <= max_wire && max_wire < LEAST
}
