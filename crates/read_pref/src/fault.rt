use thiserror::Error;

/// Tags stand beside the mode primary (Server Selection, Read Preference: tag sets are for the other modes).
#[derive(Clone, Copy, Debug, PartialEq, Eq, Error)]
#[error("a read preference of mode primary has no tags")]
pub struct TagsOnPrimary;
