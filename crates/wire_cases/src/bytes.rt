//! Steps about `bson_wire` and `msg_wire`, the bytes of documents and of messages: those of [`steps`], and the facts of
//! [`facts`]. Bytes are written in hexadecimal, two digits each, with blanks between them; documents as `case_documents`
//! says.
mod facts;
mod faults;
mod frames;
mod levels;
mod messages;
mod state;
mod steps;

pub use state::State;
