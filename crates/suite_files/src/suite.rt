use crate::{Fault, Tally};
use serde_json::Value;
use std::alloc::Global;

/// What files of tests are about.
pub trait Suite {
    /// Runs a file of the suite of that name. What it says is compared by the tally, which keeps what is otherwise; a fault
    /// ends the file.
    fn run(&self, alloc: Global, suite: &str, file: &Value, tally: &mut Tally) -> Result<(), Fault>;
}
