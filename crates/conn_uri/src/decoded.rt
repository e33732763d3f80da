use crate::said::Said;
use bson_doc::{Rows, Text};

/// The texts of a connection string, without escapes.
#[derive(Debug, Drop)]
pub(crate) struct Decoded {
    /// The hosts.
    pub(crate) hosts: Rows<Text>,
    /// The database.
    pub(crate) db: Text,
    /// The options; none where a piece is empty.
    pub(crate) options: Rows<Option<Said>>,
}
