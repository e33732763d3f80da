ghost use Rattle.std.specs.Prelude.{◌≡◌};
ghost use Rattle.topo_rules.specs.Kinds.{is_known as is_known_lem, bears_data as bears_data_lem, is_primary as is_primary_lem};
ghost use Rattle.topo_rules.specs.Readings.{is_misfit as is_misfit_lem};

use hello_reply::{ServerDescription, ServerKind};

/// The least and the greatest wire version that this client speaks.
const LEAST_WIRE: i32 = 13;

const GREATEST_WIRE: i32 = 25;

/// Whether the description is of another kind than Unknown: a reply told it, and no error, refusal or rule has put a default
/// Unknown in its place since.
pub fn is_known(description: &ServerDescription) -> bool
    ensures { result ≡ is_known_lem description.now }
{
    !matches!(description.kind, ServerKind::Unknown)
}

/// Whether the server bears data (SDAM, Terms: data-bearing server).
pub fn bears_data(description: &ServerDescription) -> bool
    ensures { result ≡ bears_data_lem description.now }
{
    matches!(
        description.kind,
        ServerKind::Primary | ServerKind::Secondary | ServerKind::Mongos | ServerKind::Standalone
    )
}

/// Whether the server is a primary.
pub fn is_primary(description: &ServerDescription) -> bool
    ensures { result ≡ is_primary_lem description.now }
{
    matches!(description.kind, ServerKind::Primary)
}

/// Whether the server is known and speaks no wire version that this client speaks (SDAM, Checking wire protocol
/// compatibility).
pub fn is_misfit(description: &ServerDescription) -> bool
    ensures { result ≡ is_misfit_lem description.now }
{
    is_known(description)
        && (description.min_wire > GREATEST_WIRE || description.max_wire < LEAST_WIRE)
}
