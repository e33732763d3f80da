//! The mean round trip time: a mean so far, a round trip, and the mean with it, in milliseconds.
use rtt_mean::next;
use serde_json::Value;
use std::alloc::Global;
use std::num::saturating_f64_to_u64;
use suite_files::members::member;
use suite_files::{Fault, Tally};

/// Runs a file. `NULL` stands for no mean so far.
pub fn run_mean(alloc: Global, file: &Value, tally: &mut Tally) -> Result<(), Fault> {
    let old = member(alloc, file, "avg_rtt_ms")?;
    let old = match old.as_str() {
        Some("NULL") => None,
        _ => Some(micros(alloc, old)?),
    };
    let sample = micros(alloc, member(alloc, file, "new_rtt_ms")?)?;
    let expected = micros(alloc, member(alloc, file, "new_avg_rtt")?)?;
    let got = next(old, sample);
    let expected = format!(in alloc; "{expected}")?;
    let got = format!(in alloc; "{got}")?;
    tally.compare(alloc, "microseconds", expected.as_str(), got.as_str())?;
    Ok(())
}

/// The nearest number of microseconds.
fn micros(alloc: Global, millis: &Value) -> Result<u64, Fault> {
    match millis.as_f64() {
        Some(millis) => Ok(saturating_f64_to_u64((millis * 1_000.0).round())),
        None => Err(Fault::told(alloc, "a number is wanted")),
    }
}
