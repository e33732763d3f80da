//! The program `wire_cases`: case files about what is read and written, connection strings, scripts, commands, documents and
//! messages.
//!
//! `wire_cases FILE..` runs the files as `case_files` says. A file's first step, `about PART`, says what the file is about, and
//! its fact `about` is the same line. Behind it stand the steps of that part, as its module says:
//!
//! - [`bytes`]: the bytes of documents and of messages, `bson_wire` and `msg_wire`;
//! - [`commands`]: requests and the outcomes of replies, `cmd_build` and `cmd_outcome`;
//! - [`scripts`]: the texts of scripts, `script_text`;
//! - [`uris`]: connection strings and settings, `conn_uri`.
#![tactic(auto)]

mod bytes;
mod cases;
mod commands;
mod scripts;
mod uris;

use case_files::run_files;
use cases::Cases;
use std::io;
use std::process::ExitCode;

fn main(rt: HostRuntime) -> io::Result<ExitCode> {
    run_files(&rt, &mut Cases::Unnamed)
}
