use crate::Memory;
use std::alloc::{AllocFailed, Global};
use std::fmt::Display;
use thiserror::Error;

/// Why a part of a file was not run to its end.
#[derive(Debug, Drop, Error)]
pub enum Fault {
    /// It says what is not in form, or of what no call here speaks.
    #[error("{0}")]
    Told(String),
    /// Want of memory.
    #[error("out of memory")]
    Memory,
}

impl Fault {
    /// The fault that is told so.
    pub fn told<T: Display + Drop>(alloc: Global, text: T) -> Fault {
        match format!(in alloc; "{text}") {
            Ok(text) => Fault::Told(text),
            Err(_) => Fault::Memory,
        }
    }

    /// The fault, told of a part of the file.
    pub fn at<T: Display + Drop>(self, alloc: Global, place: T) -> Fault {
        match self {
            Fault::Told(text) => Fault::told(alloc, format_args!("{place}: {text}")),
            Fault::Memory => Fault::Memory,
        }
    }
}

impl From<Memory> for Fault {
    fn from(_: Memory) -> Fault {
        Fault::Memory
    }
}

impl<T: Drop> From<AllocFailed<T>> for Fault {
    fn from(_: AllocFailed<T>) -> Fault {
        Fault::Memory
    }
}
