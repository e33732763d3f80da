use crate::Sequence;
use bson_doc::Document;

/// A section of a message (MongoDB wire protocol, OP_MSG, Sections).
#[derive(Debug, Drop)]
pub enum Section {
    /// A section of kind 0: one document.
    Body(Document),
    /// A section of kind 1.
    Sequence(Sequence),
}
