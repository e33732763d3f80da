use crate::TopoKind;
use crate::maxima::Maxima;
use crate::servers::Servers;
use crate::table::Shared;
use bson_doc::Text;

/// What an event makes of the servers.
#[derive(Drop)]
pub enum Edit {
    /// The description is put at its host; no other host changes.
    Put(Shared),
    /// Hosts may come and leave: these are the servers behind the event.
    Whole(Servers),
}

/// What an event makes of the topology's kind.
#[derive(Clone, Copy, Drop)]
pub enum KindRule {
    /// This kind.
    Is(TopoKind),
    /// checkIfHasPrimary, over the servers behind the event.
    ByPrimary,
}

/// What an event makes of a topology. It is prepared before the topology changes, so that want of memory leaves the
/// topology as it was.
#[derive(Drop)]
pub struct Outcome {
    /// The servers.
    pub edit: Edit,
    /// The kind.
    pub kind: KindRule,
    /// The set name that is taken; none where it stays.
    pub name: Option<Text>,
    /// The greatest election and set version.
    pub most: Maxima,
}
