ghost use Rattle.std.specs.Prelude.{◌≡◌, ◌≤◌, ◌↔◌, [], IfOk, IsOk, IsTrue, IsUtf8, Some, length, string_bytes, string_capacity};
ghost use Rattle.std.specs.Ordering.{as_partial_cmp};
ghost use Rattle.std.specs.Cmp.{partial_order_from_own_ties};
ghost use Rattle.std.specs.Cmp.Rules.{comparing};
ghost use Rattle.std.proofs.Common.{rules};
ghost use Rattle.host_name.specs.Addresses.{is_same_address, address_cmp, address_text, address_writes, address_writes-same, IsHost};

use crate::Memory;
use std::alloc::Global;
use std::cmp::Ordering;
use std::fmt;
use std::hash::{Hash, Hasher};
use std::marker::Model;

/// A server's name, in lower case, and its port.
#[derive(Debug, Drop)]
pub struct Host {
    name: String,
    port: u16,
}

impl Model for Host {
    ghost use Rattle.std.specs.Prelude.{string_bytes};
    ghost use Rattle.host_name.specs.Addresses.{Address, IsHost};

    ghost Value = { Address };

    ghost view = { λ h. record { name = string_bytes h.name; port = h.port } };

    ghost invariant = { λ h. IsHost (record { name = string_bytes h.name; port = h.port }) };
}

impl Host {
    pub(crate) fn new(name: String, port: u16) -> Host
        requires { IsHost (record { name = string_bytes name; port = port }) }
        ensures { result ≡ record { name = string_bytes name; port = port } }
    {
        Host { name, port }
    }

    /// The name, in lower case, with its brackets where it has them.
    pub fn name(&self) -> &str
        ensures value { result.now ≡ self.now.name }
        ensures utf8 { IsUtf8 result.now }
        ensures host { IsHost self.now }
    {
        self.name.as_str()
    }

    /// The port.
    pub fn port(&self) -> u16
        ensures value { result ≡ self.now.port }
        ensures at_least_one { 1 ≤ result }
    {
        self.port
    }

    /// The host as it is displayed and dialled, `name:port`.
    pub fn text(&self, alloc: Global) -> Result<String, Memory>
        ensures { IfOk result (λ text. string_bytes text ≡ address_text self.now) }
    {
        self.to_string(alloc)
    }

    /// An equal host.
    pub fn copy(&self, alloc: Global) -> Result<Host, Memory>
        ensures { IfOk result (λ h. h ≡ self.now) }
    {
        let name = String::from_str(alloc, self.name())?;
        Ok(Host {
            name,
            port: self.port,
        })
    }

    /// An equal host in the room of an empty string, which may be reserved ahead.
    pub fn copy_into(&self, room: String) -> Result<Host, Memory>
        requires { string_bytes room ≡ [] }
        ensures copy { IfOk result (λ h. h ≡ self.now) }
        ensures succeeds { length self.now.name ≤ string_capacity room → IsOk result }
    {
        let mut name = room;
        name.push_str(self.name())?;
        Ok(Host {
            name,
            port: self.port,
        })
    }
}

impl PartialEq for Host {
    ghost eq = { is_same_address };

    ghost laws = { Prim.search (comparing, rules) };

    fn eq(&self, other: &Host) -> bool
        ensures value { result ≡ is_same_address self.now other.now }
        ensures same { IsTrue result ↔ (self.now ≡ other.now) }
    {
        self.name() == other.name() && self.port == other.port
    }
}

impl Eq for Host {
    ghost laws = { Prim.search (comparing, rules) };
}

impl PartialOrd for Host {
    ghost partial_cmp = { as_partial_cmp address_cmp };

    ghost laws = { partial_order_from_own_ties (Prim.search (comparing, rules)) (Prim.search (comparing, rules)) };

    fn partial_cmp(&self, other: &Host) -> Option<Ordering> {
        Some(self.cmp(other))
    }
}

impl Ord for Host {
    ghost cmp = { address_cmp };

    ghost total = { Prim.search (comparing, rules) };

    ghost matches_partial_cmp = { Prim.search (comparing, rules) };

    ghost matches_eq = { Prim.search (comparing, rules) };

    fn cmp(&self, other: &Host) -> Ordering {
        self.name()
            .cmp(&other.name())
            .then(self.port.cmp(&other.port))
    }
}

impl Hash for Host {
    ghost hash_input = { address_writes };

    ghost respects_eq = { address_writes-same };

    fn hash<H: Hasher>(&self, state: &mut H) {
        self.name().hash(state);
        self.port.hash(state);
    }
}

impl fmt::Display for Host {
    ghost output = { λ h. Some (address_text h) };

    fn fmt<W: fmt::Write>(&self, f: &mut fmt::Formatter<W>) -> fmt::Result {
        write!(f, "{}:{}", self.name(), self.port)
    }
}
