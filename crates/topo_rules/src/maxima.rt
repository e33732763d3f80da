use bson_doc::Oid;

/// The greatest election and set version: maxElectionId and maxSetVersion (SDAM, TopologyDescription). Each is none until a
/// primary brought one. From wire version 17 on both are those of the last primary that was not stale, so that the set
/// version may fall, and may become none, where the election rises.
#[derive(Clone, Copy, Debug, Drop)]
pub struct Maxima {
    pub election: Option<Oid>,
    pub version: Option<i64>,
}
