//! How a member is elected, and how it follows.
ghost use Rattle.std.specs.Prelude.{◌≡◌, ◌≤◌, IfSome, Some, OnOk, OnErr};
ghost use Rattle.std.specs.Option.{option_copied, option_map};
ghost use Rattle.member_core.specs.Members.{MemberState, elected_log, with_election, with_log};
ghost use Rattle.member_core.specs.Shares.{IsShared};

use crate::{Member, Memory};
use std::alloc::Global;

impl Member {
    /// Is elected, by the election of that number, behind `last`, the last elected member, None where that is itself. It
    /// takes the acknowledged entries of that one whose keys it lacks, and knows as acknowledged what that one knew. So many
    /// entries at the front of the two logs are known to be the same; what is done is done behind them.
    pub fn elect(
        &mut self,
        alloc: Global,
        last: Option<&Member>,
        number: u64,
        shared: usize,
    ) -> Result<(), Memory>
        requires shared { IfSome (option_copied last) (λ (m : MemberState). IsShared shared self.old.log m.log) }
        ensures ok { OnOk result (self.new ≡ with_election self.old (option_map (λ (m : MemberState). m.log) (option_copied last.entry)) number) }
        ensures shared { OnOk result (IfSome (option_copied last.entry) (λ (m : MemberState). IsShared shared self.new.log m.log)) }
        ensures err { OnErr result (self.new ≡ self.old) }
    {
        if let Some(last) = last {
            self.gain(alloc, last, shared)?;
        }
        self.election = Some(number);
        self.changes = self.changes.saturating_add(1);
        Ok(())
    }

    /// Takes what an election behind that member gives.
    fn gain(&mut self, alloc: Global, last: &Member, shared: usize) -> Result<(), Memory>
        requires shared { IsShared shared self.old.log last.now.log }
        ensures ok { OnOk result (self.new ≡ record self.old { log = elected_log (Some last.now.log) self.old.log }) }
        ensures shared { OnOk result (IsShared shared self.new.log last.now.log) }
        ensures err { OnErr result (self.new ≡ self.old) }
    {
        self.log.gain(alloc, &last.log, shared)?;
        Ok(())
    }

    /// Copies the log of another member, and takes no writes from then on. So many entries at the front of the two logs are known
    /// to be the same; the others are copied.
    pub fn follow(&mut self, alloc: Global, other: &Member, shared: usize) -> Result<(), Memory>
        requires shared { IsShared shared self.old.log other.now.log }
        ensures ok { OnOk result (self.new ≡ with_log self.old other.now.log) }
        ensures err { OnErr result (self.new ≡ self.old) }
    {
        self.copy(alloc, other, shared)?;
        if self.election.is_some() {
            self.changes = self.changes.saturating_add(1);
        }
        self.election = None;
        Ok(())
    }

    /// Copies the log of another member.
    fn copy(&mut self, alloc: Global, other: &Member, shared: usize) -> Result<(), Memory>
        requires shared { IsShared shared self.old.log other.now.log }
        ensures ok { OnOk result (self.new ≡ record self.old { log = other.now.log }) }
        ensures err { OnErr result (self.new ≡ self.old) }
    {
        self.log.copy(alloc, &other.log, shared)?;
        Ok(())
    }

    /// How many entries at the front of its log and of another member's are the same, marks too, where so many are known to be.
    pub fn shared_with(&self, other: &Member, shared: usize) -> usize
        requires shared { IsShared shared self.now.log other.now.log }
        ensures shared { IsShared result self.now.log other.now.log }
        ensures more { shared ≤ result }
    {
        self.log.shared_with(&other.log, shared)
    }
}
