//! The settings that tests of several crates begin with.
ghost use Rattle.std.specs.Prelude.{◌≡◌, [], ◌∷◌, IfOk};

use bson_doc::{Memory, Rows, Text};
use conn_uri::Settings;
use host_name::Host;
use std::alloc::Global;

/// The settings of one seed.
pub fn one_seed(alloc: Global, seed: &Host) -> Result<Settings, Memory>
    ensures { IfOk result (λ settings. settings.hosts ≡ seed.now ∷ []) }
{
    let mut hosts = Rows::new(alloc);
    hosts.push(seed.copy(alloc)?)?;
    Ok(Settings::plain(alloc, hosts, None, Text::take(alloc, "test")?))
}
