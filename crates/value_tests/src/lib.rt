//! Tests of the lowest crates, those of judges of entries, documents, hosts and texts in JSON.
//!
//! There is a file for each crate that is tested, as `of_bson_doc` for `bson_doc`: public calls on their happy
//! paths, and what no clause of a contract says. Beside the tests stands what they ask of a value ([`values`]). The
//! tests stand apart from the crates that they test, since a crate that has tests is proved once more with them.
#![tactic(auto)]

#[cfg(test)]
mod of_bson_doc;
#[cfg(test)]
mod of_bson_text;
#[cfg(test)]
mod of_entry_judge;
#[cfg(test)]
mod of_host_name;
pub mod values;
