/// What a field's value must be.
#[derive(Clone, Copy, Debug, PartialEq, Eq)]
pub(crate) enum Column {
    /// A string.
    Text,
    /// An int32 or int64 within bounds.
    Whole {
        /// The least number that is in the column.
        least: i64,
        /// The greatest number that is in the column.
        most: i64,
    },
    /// An ObjectId.
    ObjectId,
    /// A string that spells a host.
    Host,
    /// An array of strings that spell hosts.
    Hosts,
    /// A document of strings.
    Tags,
    /// A topology version.
    Version,
}
