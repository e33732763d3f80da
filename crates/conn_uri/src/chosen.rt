use bson_doc::{Rows, Text};
use read_pref::{Mode, TagSet};

/// What the options choose (URI Options).
#[derive(Debug, Drop)]
pub(crate) struct Chosen {
    pub(crate) set_name: Option<Text>,
    pub(crate) direct: bool,
    pub(crate) retry_writes: bool,
    pub(crate) connect_ms: u64,
    pub(crate) socket_ms: u64,
    pub(crate) select_ms: u64,
    pub(crate) beat_ms: u64,
    pub(crate) threshold_ms: u64,
    pub(crate) wait_ms: u64,
    pub(crate) idle_ms: u64,
    pub(crate) max_pool: u32,
    pub(crate) max_connecting: u32,
    pub(crate) mode: Mode,
    pub(crate) tag_sets: Rows<TagSet>,
    /// The names of the pieces that were ignored, in order.
    pub(crate) warnings: Rows<Text>,
    /// The names of the options that ask for what is left out.
    pub(crate) left: Rows<Text>,
}
