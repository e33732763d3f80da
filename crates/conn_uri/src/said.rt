use bson_doc::Text;

/// A piece of the options: the name in lower case, and the value without escapes.
#[derive(Debug, Drop)]
pub(crate) struct Said {
    /// The name.
    pub(crate) name: Text,
    /// The value.
    pub(crate) value: Text,
}
