ghost use Rattle.std.specs.Prelude.{◌≡◌};

use case_files::CaseFault;
use server_pick::{Candidate, Picker};
use std::alloc::Global;

/// What a picker allows.
#[derive(Clone, Copy, Debug, PartialEq, Eq)]
pub enum Rule {
    /// Every candidate.
    All,
    /// No candidate.
    Nothing,
    /// Every second candidate.
    Second,
}

/// A picker that counts the candidates that it is asked of.
#[derive(Clone, Copy)]
pub struct CountingPicker {
    /// What it allows.
    pub rule: Rule,
    /// How often it was asked.
    pub asked: u32,
}

impl Picker for CountingPicker {
    ghost use Rattle.rule_cases.specs.Rules.{allowed};

    ghost allows = { λ p _. allowed p.rule p.asked };

    ghost follows = { λ p _ q. q.rule ≡ p.rule };

    fn keep(&mut self, _candidate: &Candidate) -> bool {
        let asked = self.asked;
        self.asked = asked.saturating_add(1);
        match self.rule {
            Rule::All => true,
            Rule::Nothing => false,
            Rule::Second => asked % 2 == 1,
        }
    }
}

/// The rule of a name.
pub fn rule_named(alloc: Global, text: &str) -> Result<Rule, CaseFault> {
    match text {
        "all" => Ok(Rule::All),
        "none" => Ok(Rule::Nothing),
        "second" => Ok(Rule::Second),
        _ => Err(CaseFault::form(alloc, text)),
    }
}
