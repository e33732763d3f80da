//! The program `bson_suite`: the BSON corpus, files of documents as their bytes and as Extended JSON, over `bson_wire`.
//!
//! `bson_suite LIST SUITE FILE.. [-- SUITE FILE..]` runs the files as `suite_files` says. Of a `valid` case the bytes of
//! `canonical_bson` are read and written again, which must give them; those of `degenerate_bson` are read, and written must
//! give the canonical ones; and what is read is compared with what `canonical_extjson` stands for, by the names of the
//! elements, since JSON objects are held in the order of names. That is left out where the case is `lossy`. The bytes of a
//! `decodeErrors` case are refused, or do not end where the document does. What is no matter of bytes is counted, and not
//! run: `parseErrors`, other texts of Extended JSON, and deprecated kinds converted to others.
#![tactic(auto)]

mod agreeing;
mod corpus;

use corpus::Corpus;
use std::io;
use std::process::ExitCode;
use suite_files::run_suites;

fn main(rt: HostRuntime) -> io::Result<ExitCode> {
    run_suites(&rt, &Corpus)
}
