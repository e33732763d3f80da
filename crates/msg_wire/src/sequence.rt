use bson_doc::{Document, Name, Rows};

/// A section of kind 1 (MongoDB wire protocol, OP_MSG, Document Sequence): documents that stand for a field of the body.
#[derive(Debug, Drop)]
pub struct Sequence {
    /// Its identifier: the name of the field that the documents stand for.
    pub name: Name,
    /// Its documents in order, possibly none.
    pub docs: Rows<Document>,
}
