ghost use Rattle.std.specs.Prelude.{◌≡◌, ◌≤◌, ◌↔◌, IsTrue};
ghost use Rattle.net_link.specs.Failing.{IsDue, counted, failed, unused};

use bson_doc::Rows;
use std::marker::Model;

/// Counts the calls and faults of a double, and knows by number which calls are to fail.
#[derive(Debug, Drop)]
pub struct Failures {
    fails: Rows<u64>,
    calls: u64,
    faults: u64,
}

impl Model for Failures {
    ghost use Rattle.net_link.specs.Failing.{Failing};

    ghost Value = { Failing };

    ghost view = { λ f. record { fails = f.fails; calls = f.calls; faults = f.faults } };
}

impl Failures {
    pub fn new(fails: Rows<u64>) -> Failures
        ensures { result ≡ unused fails }
    {
        Failures {
            fails,
            calls: 0,
            faults: 0,
        }
    }

    /// Whether the next call is to fail.
    pub fn is_due(&self) -> bool
        ensures { IsTrue result ↔ IsDue self.now }
    {
        self.fails
            .as_slice()
            .contains(&self.calls.saturating_add(1))
    }

    /// Counts a call that does not fail.
    pub fn count(&mut self)
        ensures { self.new ≡ counted self.old }
    {
        self.calls = self.calls.saturating_add(1);
    }

    /// Counts a call that fails.
    pub fn fail(&mut self)
        ensures counts { self.new ≡ failed self.old }
        ensures later { self.old.faults ≤ self.new.faults }
    {
        self.calls = self.calls.saturating_add(1);
        self.faults = self.faults.saturating_add(1);
    }
}
