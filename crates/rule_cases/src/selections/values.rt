use case_files::CaseFault;
use std::alloc::Global;

/// The two texts around the first colon.
pub fn pair(alloc: Global, text: &str) -> Result<(&str, &str), CaseFault> {
    match text.split_once(':') {
        Some((front, back)) => Ok((front, back)),
        None => Err(CaseFault::form(alloc, text)),
    }
}
