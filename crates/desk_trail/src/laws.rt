//! What holds of every trail, each law as the contract of a function that does nothing.

pub mod commands;
pub mod places;
pub mod pools;
pub mod sessions;
pub mod topology;
