ghost use Rattle.std.specs.Prelude.{◌≡◌, fold, find, option_copied};
ghost use Rattle.std.specs.List.{list_any};
ghost use Rattle.std.specs.Option.{option_map, unwrap_or};
ghost use Rattle.std.specs.Arc.{arc_value};
ghost use Rattle.topo_rules.specs.Kinds.{is_primary as is_primary_lem};
ghost use Rattle.topo_rules.specs.Readings.{lesser as lesser_lem, lowered as lowered_lem, is_misfit as is_misfit_lem};

use crate::kinds::{bears_data, is_misfit, is_primary};
use crate::table::Shared;
use hello_reply::ServerDescription;

/// Whether some server of the table is a primary.
pub fn some_is_primary(table: &[Shared]) -> bool
    ensures { result ≡ list_any (λ s. is_primary_lem (arc_value s)) table.now }
{
    table.iter().any(|shared| is_primary(shared))
}

/// The first misfit of the table.
pub fn first_misfit(table: &[Shared]) -> Option<&ServerDescription>
    ensures { option_copied result ≡ option_map (λ s. arc_value s) (find (λ s. is_misfit_lem (arc_value s)) table.now) }
{
    match table.iter().find(|shared| is_misfit(shared)) {
        Some(shared) => Some(&**shared),
        None => None,
    }
}

/// The lesser of two numbers of minutes, none where one is none.
fn lesser(a: Option<i64>, b: Option<i64>) -> Option<i64>
    ensures { result ≡ lesser_lem a b }
{
    match (a, b) {
        (Some(a), Some(b)) => Some(a.min(b)),
        _ => None,
    }
}

/// The least timeout with one more server; none where no data-bearing server was met.
fn lowered(lowest: Option<Option<i64>>, description: &ServerDescription) -> Option<Option<i64>>
    ensures { result ≡ lowered_lem lowest description.now }
{
    if !bears_data(description) {
        return lowest;
    }
    match lowest {
        None => Some(description.session_minutes),
        Some(lowest) => Some(lesser(lowest, description.session_minutes)),
    }
}

/// The least session timeout of the table's data-bearing servers.
pub fn least_minutes(table: &[Shared]) -> Option<i64>
    ensures { result ≡ unwrap_or (fold (λ lowest s. lowered_lem lowest (arc_value s)) None table.now) None }
{
    let lowest: Option<Option<i64>> = table
        .iter()
        .fold(None, |lowest, shared| lowered(lowest, shared));
    match lowest {
        Some(lowest) => lowest,
        None => None,
    }
}
