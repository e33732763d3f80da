ghost use Rattle.std.specs.Prelude.{◌≡◌};

use crate::tags::fits;
use hello_reply::{ServerDescription, ServerKind};
use host_name::Host;
use read_pref::TagSet;

/// Which kinds of servers pass.
#[derive(Clone, Copy)]
pub enum Kinds {
    /// None.
    Nothing,
    /// All but Unknown.
    Known,
    /// Mongos.
    Mongos,
    /// The primary.
    Primary,
    /// Secondaries.
    Secondary,
    /// The primary and secondaries.
    Member,
}

/// Which servers pass: by their kind, by one tag set where one decides, and all but one host where one is avoided.
#[derive(Clone, Copy)]
pub struct Sieve<'a> {
    /// The kinds that pass.
    pub kinds: Kinds,
    /// The tag set that decides.
    pub tags: Option<&'a TagSet>,
    /// The host that does not pass.
    pub avoid: Option<&'a Host>,
}

impl Kinds {
    ghost use Rattle.server_pick.specs.Sieves.{lets as lets_lem};

    /// Whether the server is of these kinds.
    fn lets(self, description: &ServerDescription) -> bool
        ensures { result ≡ lets_lem self description.now }
    {
        match self {
            Kinds::Nothing => false,
            Kinds::Known => !matches!(description.kind, ServerKind::Unknown),
            Kinds::Mongos => matches!(description.kind, ServerKind::Mongos),
            Kinds::Primary => matches!(description.kind, ServerKind::Primary),
            Kinds::Secondary => matches!(description.kind, ServerKind::Secondary),
            Kinds::Member => matches!(
                description.kind,
                ServerKind::Primary | ServerKind::Secondary
            ),
        }
    }
}

impl<'a> Sieve<'a> {
    ghost use Rattle.server_pick.specs.Sieves.{is_fit, is_other, passes as passes_lem, plain};

    /// The sieve of kinds alone.
    pub fn of(kinds: Kinds) -> Sieve<'a>
        ensures { result ≡ plain kinds }
    {
        Sieve {
            kinds,
            tags: None,
            avoid: None,
        }
    }

    /// Whether the tag set that decides fits the server.
    fn is_fit(&self, description: &ServerDescription) -> bool
        ensures { result ≡ is_fit self.now.tags description.now }
    {
        match self.tags {
            Some(tags) => fits(tags.as_slice(), description),
            None => true,
        }
    }

    /// Whether the server is another one than the one to avoid.
    fn is_other(&self, description: &ServerDescription) -> bool
        ensures { result ≡ is_other self.now.avoid description.now }
    {
        match self.avoid {
            Some(host) => !(description.host == *host),
            None => true,
        }
    }

    /// Whether the server passes.
    pub fn passes(&self, description: &ServerDescription) -> bool
        ensures { result ≡ passes_lem self.now description.now }
    {
        self.kinds.lets(description) && self.is_fit(description) && self.is_other(description)
    }
}
