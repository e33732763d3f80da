//! What members' logs are known to share, so that an election and a following look only at what is new.
ghost use Rattle.std.specs.Prelude.{◌≡◌, ◌<◌, ◌==◌, ℕ, IfOk, length, map, min, slice_set, if◌then◌else◌};
ghost use Rattle.member_hall.specs.Shared.{lessened, share_at};

use crate::Memory;
use std::alloc::Global;
use std::marker::Model;

/// For each member, by its place, how many entries at the front of its log are known to be those of the last elected member's log.
#[derive(Debug, Drop)]
pub(crate) struct Shares {
    counts: Vec<usize>,
}

impl Model for Shares {
    ghost use Rattle.std.specs.Prelude.{ℕ, List};

    ghost Value = { List ℕ };

    ghost view = { λ s. s.counts.items };
}

impl Shares {
    /// Nothing is known of so many members.
    pub(crate) fn new(alloc: Global, members: usize) -> Result<Shares, Memory>
        ensures count { IfOk result (λ shares. length shares ≡ members) }
        ensures nothing { IfOk result (λ shares. (m : ℕ) → share_at shares m ≡ 0) }
    {
        let mut counts = Vec::new(alloc);
        for _member in 0..members {
            counts.push(0)?;
        }
        Ok(Shares { counts })
    }

    /// How much a member shares.
    pub(crate) fn of(&self, member: u32) -> usize
        requires { member < length self.now }
        ensures { result ≡ share_at self.now member }
    {
        self.counts[member as usize]
    }

    /// A member shares so much.
    pub(crate) fn set(&mut self, member: u32, count: usize)
        requires { member < length self.old }
        ensures { self.new ≡ slice_set self.old member count }
    {
        self.counts[member as usize] = count;
    }

    /// Another member was elected, with whose log that of the last elected one shares so much.
    pub(crate) fn elect(&mut self, last: u32, found: usize)
        requires { last < length self.old }
        ensures { self.new ≡ slice_set (lessened found self.old) last found }
    {
        self.lessen(found);
        self.set(last, found);
    }

    /// A member answered, and so many entries at the front of its log stayed as they were.
    pub(crate) fn answer(&mut self, member: u32, last: u32, kept: usize)
        requires { member < length self.old }
        ensures { self.new ≡ (if last == member then lessened kept self.old else slice_set self.old member (min (share_at self.old member) kept)) }
    {
        if last == member {
            self.lessen(kept);
        } else {
            let count = self.of(member).min(kept);
            self.set(member, count);
        }
    }

    /// No member shares more than so much.
    fn lessen(&mut self, most: usize)
        ensures { self.new ≡ lessened most self.old }
    {
        lessen_all(self.counts.as_mut_slice(), most);
    }
}

/// No count is greater than that.
fn lessen_all(counts: &mut [usize], most: usize)
    ensures { counts.new ≡ lessened most counts.old }
{
    for count in counts.iter_mut() {
        *count = (*count).min(most);
    }
}
