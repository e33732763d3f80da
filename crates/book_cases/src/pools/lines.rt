use crate::pools::state::Told;
use case_files::{CaseFault, Memory};
use std::alloc::Global;
use wait_line::WaitLine;

/// Gives the next number of the line.
pub fn join(line: &mut WaitLine) -> Result<Told, CaseFault> {
    if line.given() == u64::MAX {
        return Err(CaseFault::Refused("the last number"));
    }
    Ok(Told::Given(line.enter()?))
}

/// `waiting NUMBER..`, the numbers that wait, with a star behind the one whose turn it is.
pub fn waiting(alloc: Global, line: &WaitLine) -> Result<String, Memory> {
    let mut text = String::from_str(alloc, "waiting")?;
    for number in 0..line.given() {
        if line.is_waiting(number) {
            write!(&mut text, " {number}")?;
        }
        if line.is_front(number) {
            text.push_str("*")?;
        }
    }
    Ok(text)
}
