use bson_doc::Text;

/// One tag of a server (SDAM, ServerDescription, tags): a name and a value, by which read preferences choose.
#[derive(Debug, Drop)]
pub struct Tag {
    /// The tag's name, as `dc`.
    pub name: Text,
    /// The tag's value, as `east`.
    pub value: Text,
}
