ghost use Rattle.std.specs.Prelude.{◌≡◌, ◌<◌, length, IfOk};
ghost use Rattle.member_core.specs.Members.{entries, new_member, takes_writes as takes_any};
ghost use Rattle.member_core.specs.Sizes.{IsWithin};

use crate::kept_log::KeptLog;
use crate::{LogEntry, Memory};
use bson_doc::{Rows, Text};
use host_name::Host;
use std::alloc::Global;
use std::marker::Model;

/// A member of a replica set. To contracts it is the set's name, the hosts of all members with its own place among them, its
/// log with a mark for each entry, the number of its election where it is primary, and how often its role changed.
#[derive(Drop)]
pub struct Member {
    pub(crate) set: Text,
    pub(crate) hosts: Rows<Host>,
    pub(crate) place: u32,
    pub(crate) log: KeptLog,
    pub(crate) election: Option<u64>,
    pub(crate) changes: u32,
}

impl Model for Member {
    ghost use Rattle.member_core.specs.Inside.{IsKept, state_of};
    ghost use Rattle.member_core.specs.Members.{MemberState};

    ghost Value = { MemberState };

    ghost view = { state_of };

    ghost invariant = { IsKept };
}

impl Member {
    /// The member at a place of the set's hosts, with an empty log. The one at place 0 is primary, by election 1. The bytes of
    /// the set's name and of the displayed hosts, with 64 more for the name and for each host, come to at most 15,000,000, so
    /// that a hello that tells all of them fits into a message.
    pub fn new(alloc: Global, set: &str, hosts: &[Host], place: u32) -> Result<Member, Memory>
        requires place { place < length hosts.now }
        requires within { IsWithin set.now hosts.now }
        ensures member { IfOk result (λ m. m ≡ new_member set.now hosts.now place) }
    {
        Ok(Member {
            set: Text::take(alloc, set)?,
            hosts: copied(alloc, hosts)?,
            place,
            log: KeptLog::new(alloc),
            election: if place == 0 { Some(1) } else { None },
            changes: 0,
        })
    }

    /// Its place among the set's hosts.
    pub fn place(&self) -> u32
        ensures value { result ≡ self.now.place }
    {
        self.place
    }

    /// Whether it takes writes: it is primary by its own account.
    pub fn takes_writes(&self) -> bool
        ensures value { result ≡ takes_any self.now }
    {
        self.election.is_some()
    }

    /// The writes that it did, in order.
    pub fn log(&self) -> &Rows<LogEntry>
        ensures value { result.now ≡ entries self.now.log }
    {
        self.log.entries()
    }
}

/// Equal hosts.
fn copied(alloc: Global, hosts: &[Host]) -> Result<Rows<Host>, Memory>
    ensures { IfOk result (λ rows. rows ≡ hosts.now) }
{
    let mut rows = Rows::new(alloc);
    for host in hosts {
        rows.push(host.copy(alloc)?)?;
    }
    Ok(rows)
}
