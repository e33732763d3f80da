use crate::phases::run_phases;
use crate::rtt::run_mean;
use serde_json::Value;
use std::alloc::Global;
use suite_files::{Fault, Suite, Tally};

/// The suites of this program, by their names.
pub struct Suites;

impl Suite for Suites {
    fn run(
        &self,
        alloc: Global,
        suite: &str,
        file: &Value,
        tally: &mut Tally,
    ) -> Result<(), Fault> {
        match suite {
            "server-discovery-and-monitoring" => run_phases(alloc, file, tally),
            "rtt" => run_mean(alloc, file, tally),
            _ => Err(Fault::told(alloc, "no such suite")),
        }
    }
}
