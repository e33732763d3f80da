//! What the acts of a plan do, and those of a turn.
ghost use Rattle.std.specs.Prelude.{◌≡◌, ◌<◌, ◌+◌, ◌^◌, remove, drop, length, true, false, OnOk, OnErr};
ghost use Rattle.member_hall.specs.Acts.{elected, following, happened, host_of, met};
ghost use Rattle.member_hall.specs.Halls.{peer_at, plan_at, with_peer};
ghost use Rattle.member_hall.specs.Orders.{ActsFrom};
ghost use Rattle.member_hall.specs.Playing.{Plays};
ghost use Rattle.member_hall.specs.Turns.{acted, is_due};

use super::HallCore;
use crate::electing::{elect_among, follow_among};
use crate::{Act, Memory};
use net_link::NetEvent;
use std::alloc::AllocError;

impl HallCore {
    /// A member is elected.
    fn elect(&mut self, host: u32) -> Result<(), Memory>
        requires { host < length self.old.peers }
        ensures ok { OnOk result (self.new ≡ elected host self.old) }
        ensures err { OnErr result (self.new ≡ self.old) }
    {
        let Some(elections) = self.elections.checked_add(1) else {
            return Err(AllocError);
        };
        self.log.keep(1)?;
        let number = u64::from(elections) + 1;
        let found = elect_among(
            self.peers.as_mut_slice(),
            host as usize,
            self.last as usize,
            number,
            self.shares.of(host),
        )?;
        self.shares.elect(self.last, found);
        self.log.note_kept(NetEvent::Elected { member: host });
        self.last = host;
        self.elections = elections;
        Ok(())
    }

    /// A member follows the last elected one, if that is not itself.
    fn follow(&mut self, host: u32) -> Result<(), Memory>
        requires { host < length self.old.peers }
        ensures ok { OnOk result (self.new ≡ following host self.old) }
        ensures err { OnErr result (self.new ≡ self.old) }
    {
        if self.last == host {
            return Ok(());
        }
        self.log.keep(1)?;
        let count = follow_among(
            self.peers.as_mut_slice(),
            host as usize,
            self.last as usize,
            self.shares.of(host),
        )?;
        self.shares.set(host, count);
        self.log.note_kept(NetEvent::Followed { member: host });
        Ok(())
    }

    /// An act happens.
    fn happen(&mut self, act: Act) -> Result<(), Memory>
        requires { host_of act < length self.old.peers }
        ensures ok { OnOk result (self.new ≡ happened act self.old) }
        ensures err { OnErr result (self.new ≡ self.old) }
    {
        match act {
            Act::Elect { host } => self.elect(host),
            Act::Follow { host } => self.follow(host),
            other => self.meet(other),
        }
    }

    /// An act happens that concerns one member alone.
    fn meet(&mut self, act: Act) -> Result<(), Memory>
        requires { host_of act < length self.old.peers }
        ensures ok { OnOk result (self.new ≡ with_peer (host_of act) (met act (peer_at self.old.peers (host_of act))) self.old) }
        ensures err { OnErr result (self.new ≡ self.old) }
    {
        let host = act.host() as usize;
        self.peers[host].meet(act)
    }

    /// Whether the turn of the act at a place of the plan has come.
    fn is_due(&self, place: usize) -> bool
        requires { place < length self.now.plan }
        ensures { result ≡ is_due self.now.turn (plan_at self.now.plan place) }
    {
        self.plan.at(place).turn <= self.turn
    }

    /// Whether the turn of no act from a place of the plan on has come, as far as that is known without a look at each of them.
    fn is_later(&self, place: usize) -> bool
        ensures later { result ≡ true → ActsFrom (self.now.turn + 1) (drop place self.now.plan) }
        ensures there { result ≡ false → place < length self.now.plan }
        ensures fits { result ≡ false → place + 1 < 2 ^ 64 }
    {
        self.plan.is_later(place, self.turn)
    }

    /// The act at a place of the plan happens, and leaves the plan.
    fn act_at(&mut self, place: usize) -> Result<(), Memory>
        requires { place < length self.old.plan }
        ensures ok { OnOk result (self.new ≡ record (happened (plan_at self.old.plan place).act self.old) { plan = remove self.old.plan place }) }
        ensures err { OnErr result (self.new ≡ self.old) }
        ensures plays { Plays self.old self.new }
    {
        let act = self.plan.at(place).act;
        self.happen(act)?;
        self.plan.remove(place);
        Ok(())
    }

    /// The acts whose turn has come leave the plan and happen, in the plan's order.
    pub(super) fn act(&mut self) -> Result<(), Memory>
        ensures ok { OnOk result (self.new ≡ acted self.old) }
        ensures plays { Plays self.old self.new }
    {
        let mut place = 0;
        'acting: while !self.is_later(place) {
            if self.is_due(place) {
                self.act_at(place)?;
            } else {
                place += 1;
            }
        }
        Ok(())
    }
}
