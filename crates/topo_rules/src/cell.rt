ghost use Rattle.std.specs.Prelude.{◌≡◌};
ghost use Rattle.topo_rules.specs.Cells.{unknown_row, sharded_row, no_primary_row, with_primary_row, cell_of};

use crate::TopoKind;
use hello_reply::ServerKind;

/// What the table of SDAM, TopologyType table, has at a kind of topology and a kind of server. Names are those of the
/// standard's pseudo code.
#[derive(Clone, Copy, Debug, Drop)]
pub enum Cell {
    /// TopologyType Single: the description is kept, unless its set is another one.
    UpdateSingle,
    /// The description is kept.
    Keep,
    /// The server is removed.
    Remove,
    /// updateUnknownWithStandalone.
    UpdateUnknownWithStandalone,
    /// The topology becomes Sharded.
    BecomeSharded,
    /// The topology becomes WithPrimary, and then updateRSFromPrimary.
    BecomeWithPrimary,
    /// The topology becomes NoPrimary, and then updateRSWithoutPrimary.
    BecomeNoPrimary,
    /// updateRSFromPrimary.
    UpdateFromPrimary,
    /// updateRSWithoutPrimary.
    UpdateWithoutPrimary,
    /// updateRSWithPrimaryFromMember.
    UpdateWithPrimaryFromMember,
    /// checkIfHasPrimary.
    CheckIfHasPrimary,
    /// The server is removed, and then checkIfHasPrimary.
    RemoveAndCheck,
}

/// The cell of the table.
pub fn cell_at(topology: TopoKind, server: ServerKind) -> Cell
    ensures { result ≡ cell_of topology server }
{
    match topology {
        TopoKind::Single => Cell::UpdateSingle,
        TopoKind::Unknown => in_unknown(server),
        TopoKind::Sharded => in_sharded(server),
        TopoKind::NoPrimary => in_no_primary(server),
        TopoKind::WithPrimary => in_with_primary(server),
    }
}

fn in_unknown(server: ServerKind) -> Cell
    ensures { result ≡ unknown_row server }
{
    match server {
        ServerKind::Unknown | ServerKind::Ghost => Cell::Keep,
        ServerKind::Standalone => Cell::UpdateUnknownWithStandalone,
        ServerKind::Mongos => Cell::BecomeSharded,
        ServerKind::Primary => Cell::BecomeWithPrimary,
        ServerKind::Secondary | ServerKind::Arbiter | ServerKind::Other => Cell::BecomeNoPrimary,
    }
}

fn in_sharded(server: ServerKind) -> Cell
    ensures { result ≡ sharded_row server }
{
    match server {
        ServerKind::Unknown | ServerKind::Mongos => Cell::Keep,
        _ => Cell::Remove,
    }
}

fn in_no_primary(server: ServerKind) -> Cell
    ensures { result ≡ no_primary_row server }
{
    match server {
        ServerKind::Unknown | ServerKind::Ghost => Cell::Keep,
        ServerKind::Standalone | ServerKind::Mongos => Cell::Remove,
        ServerKind::Primary => Cell::BecomeWithPrimary,
        ServerKind::Secondary | ServerKind::Arbiter | ServerKind::Other => {
            Cell::UpdateWithoutPrimary
        }
    }
}

fn in_with_primary(server: ServerKind) -> Cell
    ensures { result ≡ with_primary_row server }
{
    match server {
        ServerKind::Unknown | ServerKind::Ghost => Cell::CheckIfHasPrimary,
        ServerKind::Standalone | ServerKind::Mongos => Cell::RemoveAndCheck,
        ServerKind::Primary => Cell::UpdateFromPrimary,
        ServerKind::Secondary | ServerKind::Arbiter | ServerKind::Other => {
            Cell::UpdateWithPrimaryFromMember
        }
    }
}
