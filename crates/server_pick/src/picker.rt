ghost use Rattle.std.specs.Prelude.{◌≡◌, Bool, true};
ghost use Rattle.server_pick.specs.declared.candidate.Candidate.{Candidate};

use crate::Candidate;

/// Which of the suitable servers may be selected, as an application says it (Server Selection, serverSelector).
///
/// A picker has states. At each one it allows some candidates, and another state may follow when it was asked of one.
pub trait Picker: Send + Drop {
    /// Whether a candidate is allowed at a state.
    ghost allows: { Self → Candidate → Bool };

    /// Which states may follow a state when it was asked of a candidate.
    ghost follows: { Self → Candidate → Self → Type 0 };

    /// Whether the candidate may be selected.
    fn keep(&mut self, candidate: &Candidate) -> bool
        ensures answer { result ≡ allows self.old candidate.now }
        ensures next { follows self.old candidate.now self.new };
}

/// The picker that allows every candidate.
#[derive(Clone, Copy, Debug, PartialEq, Eq)]
pub struct KeepAll;

impl Picker for KeepAll {
    ghost use Rattle.std.specs.Prelude.{◌≡◌, true};

    ghost allows = { λ _ _. true };

    ghost follows = { λ p _ q. q ≡ p };

    fn keep(&mut self, _candidate: &Candidate) -> bool {
        true
    }
}

/// A boxed picker allows what the picker inside allows.
impl Picker for Box<dyn Picker> {
    ghost use Rattle.std.specs.Prelude.{◌≡◌};
    ghost use Rattle.server_pick.specs.Objects.{held};

    ghost allows = { λ b c. (Picker-box b).allows b.value c };

    ghost follows = { λ b c d. (w : _) × (Picker-box b).follows b.value c w × (held d ≡ (b.vtable, w)) };

    fn keep(&mut self, candidate: &Candidate) -> bool {
        self.as_mut().keep(candidate)
    }
}
