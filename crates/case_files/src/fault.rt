use crate::Memory;
use std::alloc::{AllocFailed, Global};
use thiserror::Error;

/// Why a step was not taken.
#[derive(Debug, Drop, Error)]
pub enum CaseFault {
    /// A word that such a step does not have, or has twice.
    #[error("unknown or repeated word `{0}`")]
    Word(String),
    /// A word that such a step must have is missing.
    #[error("no {0}")]
    Missing(&'static str),
    /// A word that is not in form.
    #[error("`{0}` is not in form")]
    Form(String),
    /// What the step asks for cannot be asked here.
    #[error("{0}")]
    Refused(&'static str),
    /// Want of memory.
    #[error("out of memory")]
    Memory,
}

impl CaseFault {
    /// The fault of a word that such a step does not have.
    pub fn word(alloc: Global, word: &str) -> CaseFault {
        match String::from_str(alloc, word) {
            Ok(word) => CaseFault::Word(word),
            Err(_) => CaseFault::Memory,
        }
    }

    /// The fault of a word that is not in form.
    pub fn form(alloc: Global, word: &str) -> CaseFault {
        match String::from_str(alloc, word) {
            Ok(word) => CaseFault::Form(word),
            Err(_) => CaseFault::Memory,
        }
    }
}

impl From<Memory> for CaseFault {
    fn from(_: Memory) -> CaseFault {
        CaseFault::Memory
    }
}

impl<T: Drop> From<AllocFailed<T>> for CaseFault {
    fn from(_: AllocFailed<T>) -> CaseFault {
        CaseFault::Memory
    }
}
