use bson_doc::{Name, Rows, Text};

/// One tag that a server is to have (Server Selection, Read Preference, tag_sets).
#[derive(Debug, Drop)]
pub struct Tag {
    /// The tag's name, as `dc`.
    pub name: Name,
    /// The tag's value, as `east`.
    pub value: Text,
}

/// Tags that a server is to have all of; the empty set fits every server.
pub type TagSet = Rows<Tag>;
