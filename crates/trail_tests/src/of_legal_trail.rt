//! Each public call on its happy path. Events, sessions and requests, which may stand only behind other entries, come in the
//! stories of the crates above.
ghost use Rattle.std.specs.Prelude.{◌≡◌, [], ◌∷◌};

use crate::seeds::one_seed;
use bson_doc::Rows;
use conn_uri::Settings;
use desk_trail::{Entry, Room};
use host_name::Host;
use legal_trail::{LegalTrail, Memory};
use std::alloc::Global;
use std::test::Fail;

/// A trail in which the seed is named and a check of it began.
fn one_check(alloc: Global, seed: Host, settings: Settings) -> Result<LegalTrail, Memory>
    requires { settings.hosts ≡ seed ∷ [] }
{
    let mut trail = LegalTrail::new(alloc, settings, Rows::new(alloc), 5);
    trail.reserve(Room {
        names: 1,
        events: 0,
        sessions: 0,
        requests: 0,
        steps: 2,
    })?;
    trail.name(5, seed);
    trail.append(5, Entry::CheckBegan { host: 0, stream: 1 });
    Ok(trail)
}

/// How many of each it shows: seeds, commands, names, events, sessions, requests, steps.
fn counts(trail: &LegalTrail) -> [usize; 7] {
    [
        trail.settings().hosts.len(),
        trail.commands().len(),
        trail.names().len(),
        trail.events().len(),
        trail.sessions().len(),
        trail.requests().len(),
        trail.steps().len(),
    ]
}

/// A trail of one seed.
fn one_trail(alloc: Global) -> Result<LegalTrail, Fail> {
    let seed = Host::parse(alloc, "a")?;
    let settings = one_seed(alloc, &seed)?;
    let trail = one_check(alloc, seed, settings)?;
    Ok(trail)
}

#[test]
fn what_is_written_is_shown(rt: HostRuntime) -> Result<(), Fail> {
    let trail = one_trail(rt.alloc())?;
    let shown = counts(&trail);
    let parts = trail.into_parts();
    let lengths = (parts.trail.steps.len(), parts.settings.hosts.len());
    drop(parts);
    assert!(rt; shown == [1, 0, 1, 0, 0, 0, 2]);
    assert!(rt; lengths == (2, 1));
    Ok(())
}
