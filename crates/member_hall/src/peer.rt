ghost use Rattle.std.specs.Prelude.{◌≡◌, ◌<◌, [], length, drop, slice_get, Some, None, IfOk, OnOk, OnErr};
ghost use Rattle.member_core.specs.Members.{elected_log, with_election, with_log};
ghost use Rattle.member_core.specs.Shares.{IsShared};
ghost use Rattle.member_core.specs.Sizes.{IsWithin};
ghost use Rattle.member_hall.specs.Acts.{met};
ghost use Rattle.member_hall.specs.Calls.{takes_dials as reached_by};
ghost use Rattle.member_hall.specs.Making.{peer_of};
ghost use Rattle.member_hall.specs.Requests.{due_by};

use crate::rule::Rule;
use crate::{Act, Memory};
use bson_doc::{Bytes, Text};
use host_name::Host;
use member_core::Member;
use std::alloc::Global;
use std::marker::Model;

/// A member, and what happened to it.
#[derive(Drop)]
pub struct Peer {
    /// The host as it is dialled.
    pub address: Text,
    /// The member.
    pub member: Member,
    /// Whether dials, reads and writes fail.
    pub dead: bool,
    /// The most bytes that a read gives, if there is a bound.
    pub split: Option<u32>,
    /// What its next write requests meet, in order.
    pub rules: Vec<Rule>,
    /// How many turns later its next answers come, in order.
    pub holds: Vec<u64>,
    /// For what it answers.
    pub alloc: Global,
}

impl Model for Peer {
    ghost use Rattle.member_hall.specs.Halls.{PeerState};

    ghost Value = { PeerState };

    ghost view = { λ p. record { address = p.address; member = p.member; dead = p.dead; split = p.split; rules = p.rules.items; holds = p.holds.items } };
}

impl Peer {
    /// The member at a place of the hosts, to which nothing happened.
    pub fn new(alloc: Global, set: &str, hosts: &[Host], place: u32) -> Result<Peer, Memory>
        requires place { place < length hosts.now }
        requires within { IsWithin set.now hosts.now }
        ensures peer { IfOk result (λ p. p ≡ peer_of set.now hosts.now place) }
    {
        let address = Text::from_string(hosts[place as usize].text(alloc)?);
        Ok(Peer {
            address,
            member: Member::new(alloc, set, hosts, place)?,
            dead: false,
            split: None,
            rules: Vec::new(alloc),
            holds: Vec::new(alloc),
            alloc,
        })
    }

    /// Whether a dial of the address reaches it.
    pub fn takes_dials(&self, address: &str) -> bool
        ensures { result ≡ reached_by address.now self.now }
    {
        !self.dead && self.address.as_str() == address
    }

    /// An act that is no election and no following.
    pub fn meet(&mut self, act: Act) -> Result<(), Memory>
        ensures ok { OnOk result (self.new ≡ met act self.old) }
        ensures err { OnErr result (self.new ≡ self.old) }
    {
        match act {
            Act::Drop { .. } => self.rules.push(Rule::Drop)?,
            Act::Mute { .. } => self.rules.push(Rule::Mute)?,
            Act::Late { turns, .. } => self.rules.push(Rule::Late { turns })?,
            Act::Refuse {
                code,
                retryable,
                no_writes,
                ..
            } => self.rules.push(Rule::Refuse {
                code,
                retryable,
                no_writes,
            })?,
            Act::Hold { turns, .. } => self.holds.push(turns)?,
            Act::Dead { .. } => self.dead = true,
            Act::Alive { .. } => self.dead = false,
            Act::Split { bytes, .. } => self.split = Some(bytes),
            Act::Elect { .. } => {}
            Act::Follow { .. } => {}
        }
        Ok(())
    }

    /// How many entries its log has.
    pub fn logged(&self) -> usize
        ensures { result ≡ length self.now.member.log }
    {
        self.member.log().len()
    }

    /// It is elected again, by the election of that number.
    pub fn stay_elected(&mut self, number: u64) -> Result<(), Memory>
        ensures ok { OnOk result (self.new ≡ record self.old { member = with_election self.old.member None number }) }
        ensures err { OnErr result (self.new ≡ self.old) }
    {
        self.member.elect(self.alloc, None, number, 0)
    }

    /// It is elected behind another member, by the election of that number. So many entries at the front of their logs are known to
    /// be the same; it answers how many are so then.
    pub fn elect_behind(&mut self, last: &Peer, number: u64, shared: usize) -> Result<usize, Memory>
        requires { IsShared shared self.old.member.log last.now.member.log }
        ensures ok { OnOk result (self.new ≡ record self.old { member = with_election self.old.member (Some last.now.member.log) number }) }
        ensures found { IfOk result (λ found. IsShared found (elected_log (Some last.now.member.log) self.old.member.log) last.now.member.log) }
        ensures err { OnErr result (self.new ≡ self.old) }
    {
        self.member
            .elect(self.alloc, Some(&last.member), number, shared)?;
        Ok(self.member.shared_with(&last.member, shared))
    }

    /// It follows another member. So many entries at the front of their logs are known to be the same; it answers how many its log
    /// has then.
    pub fn follow(&mut self, other: &Peer, shared: usize) -> Result<usize, Memory>
        requires { IsShared shared self.old.member.log other.now.member.log }
        ensures ok { OnOk result (self.new ≡ record self.old { member = with_log self.old.member other.now.member.log }) }
        ensures count { IfOk result (λ count. count ≡ length other.now.member.log) }
        ensures err { OnErr result (self.new ≡ self.old) }
    {
        self.member.follow(self.alloc, &other.member, shared)?;
        Ok(self.logged())
    }

    /// What the next write request meets, if anything.
    pub fn rule(&self) -> Option<Rule>
        ensures { result ≡ slice_get self.now.rules 0 }
    {
        self.rules.as_slice().first().copied()
    }

    /// That rule was followed.
    pub fn follow_rule(&mut self)
        ensures { self.new ≡ record self.old { rules = drop 1 self.old.rules } }
    {
        if !self.rules.is_empty() {
            self.rules.remove(0);
        }
    }

    /// From which turn on an answer of that turn can be read; a hold is used up.
    pub fn due(&mut self, turn: u64) -> u64
        ensures due { result ≡ due_by turn self.old.holds }
        ensures peer { self.new ≡ record self.old { holds = drop 1 self.old.holds } }
    {
        if self.holds.is_empty() {
            return turn;
        }
        turn.saturating_add(self.holds.remove(0))
    }
}
