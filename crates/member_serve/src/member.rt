//! The member that is served.
ghost use Rattle.std.specs.Prelude.{◌≡◌, ◌≤◌, ◌<◌, ◌^◌, ◌∷◌, [], IfOk, length};
ghost use Rattle.member_core.specs.Members.{new_member};
ghost use Rattle.member_serve.specs.Words.{MOST_SET, loopback};

use crate::{Memory, Settings};
use host_name::Host;
use member_core::Member;
use std::alloc::{AllocError, Global};

/// The member of a set of one, of the settings' name and at the loopback address and the settings' port. Its log is empty,
/// and it is primary by election 1.
pub fn member_of(alloc: Global, settings: &Settings) -> Result<Member, Memory>
    requires port { 1 ≤ settings.now.port }
    requires set { length settings.now.set.now ≤ MOST_SET }
    ensures { IfOk result (λ m. m ≡ new_member settings.now.set.now (loopback settings.now.port ∷ []) 0) }
{
    let host = loopback_host(alloc, settings.port)?;
    Member::new(alloc, settings.set, &[host], 0)
}

/// The host of the loopback address and that port.
fn loopback_host(alloc: Global, port: u16) -> Result<Host, Memory>
    requires { 1 ≤ port }
    ensures { IfOk result (λ host. host ≡ loopback port) }
{
    let text = format!(in alloc; "127.0.0.1:{port}")?;
    match Host::parse(alloc, text.as_str()) {
        Ok(host) => Ok(host),
        // (the text spells a host, so that want of memory is all that is left)
        Err(_) => Err(AllocError),
    }
}
