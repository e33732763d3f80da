use crate::bytes::facts::fact_of;
use crate::bytes::frames::Frame;
use crate::bytes::steps::step_of;
use bson_doc::Document;
use case_files::{CaseFault, Subject, Words};
use std::alloc::Global;

/// What the last step made.
#[derive(Drop)]
pub enum State {
    /// No step was taken yet.
    Nothing,
    /// A document, and the header that it is written with as a message.
    Document(Document, Frame),
    /// Bytes that a document is to be read from.
    Bytes(Vec<u8>),
    /// Bytes that a message is to be read from.
    Message(Vec<u8>),
}

impl Subject for State {
    fn begin(&mut self, _alloc: Global) -> Result<(), CaseFault> {
        *self = State::Nothing;
        Ok(())
    }

    fn step(&mut self, alloc: Global, words: &mut Words<'_>) -> Result<(), CaseFault> {
        *self = step_of(alloc, words)?;
        Ok(())
    }

    fn fact(&self, alloc: Global, name: &str) -> Result<Option<String>, CaseFault> {
        fact_of(alloc, self, name)
    }
}
