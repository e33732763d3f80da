//! The logs of members, as a history tells them: what stands in them at every moment.
use crate::requests::{Asked, Requests};
use bson_doc::Memory;
use member_core::{Key, LogEntry};
use net_link::{Effect, NetEvent};
use std::alloc::Global;

/// What a history told so far.
#[derive(Drop)]
pub struct Logs {
    /// The log of each member.
    logs: Vec<Vec<Asked>>,
    /// The keys of the writes that were acknowledged.
    acknowledged: Vec<Key>,
    /// The member that was elected last.
    last: usize,
    /// How often a command stood in a log at most, at any moment.
    most: u64,
    /// Whether the history told what cannot be: a member that is not there, or a request that nobody sent.
    is_broken: bool,
}

impl Logs {
    /// The logs of so many members, before anything happened.
    pub fn new(alloc: Global, members: u32) -> Result<Logs, Memory> {
        let mut logs = Vec::new(alloc);
        for _ in 0..members {
            logs.push(Vec::new(alloc))?;
        }
        Ok(Logs {
            logs,
            acknowledged: Vec::new(alloc),
            last: 0,
            most: 0,
            is_broken: false,
        })
    }

    /// The logs behind a history.
    pub fn behind(
        alloc: Global,
        members: u32,
        history: &[NetEvent],
        requests: &Requests,
    ) -> Result<Logs, Memory> {
        let mut logs = Logs::new(alloc, members)?;
        for event in history {
            logs.take_in(alloc, event, requests)?;
        }
        Ok(logs)
    }

    /// How often a command stood in a log at most, at any moment.
    pub fn most(&self) -> u64 {
        self.most
    }

    /// Whether the history told what cannot be.
    pub fn is_broken(&self) -> bool {
        self.is_broken
    }

    /// How often a command stands in the log of the member that was elected last.
    pub fn count_of(&self, op: u32) -> u64 {
        match self.logs.get(self.last) {
            Some(log) => count_in(log, op),
            None => 0,
        }
    }

    /// Whether the log of a member has these entries.
    pub fn is_log(&self, member: u32, entries: &[LogEntry]) -> bool {
        match self.logs.get(member as usize) {
            Some(log) => are_same(log, entries),
            None => false,
        }
    }

    /// Takes in an event.
    fn take_in(
        &mut self,
        alloc: Global,
        event: &NetEvent,
        requests: &Requests,
    ) -> Result<(), Memory> {
        match event {
            NetEvent::Handled {
                member,
                stream,
                nth,
                effect,
            } => match requests.find(*stream, *nth) {
                Some(asked) => self.handle(*member as usize, asked, *effect),
                None => {
                    self.is_broken = true;
                    Ok(())
                }
            },
            NetEvent::Elected { member } => self.elect(alloc, *member as usize),
            NetEvent::Followed { member } => self.follow(alloc, *member as usize),
            _ => Ok(()),
        }
    }

    /// A member handled a request.
    fn handle(&mut self, member: usize, asked: Asked, effect: Effect) -> Result<(), Memory> {
        if effect == Effect::Added {
            self.add(member, asked)?;
        }
        if member == self.last && (effect == Effect::Added || effect == Effect::Known) {
            self.acknowledged.push(asked.key)?;
        }
        Ok(())
    }

    /// A write took effect at a member.
    fn add(&mut self, member: usize, asked: Asked) -> Result<(), Memory> {
        match self.logs.get_mut(member) {
            Some(log) => log.push(asked)?,
            None => self.is_broken = true,
        }
        self.count(member);
        Ok(())
    }

    /// A member was elected: it gains what was acknowledged, stands in the log of the one that was elected before it, and is not
    /// in its own.
    fn elect(&mut self, alloc: Global, member: usize) -> Result<(), Memory> {
        let gained = self.gained(alloc, member)?;
        match self.logs.get_mut(member) {
            Some(log) => log.extend_from_slice(gained.as_slice())?,
            None => self.is_broken = true,
        }
        self.last = member;
        self.count(member);
        Ok(())
    }

    /// What a member gains that is elected.
    fn gained(&self, alloc: Global, member: usize) -> Result<Vec<Asked>, Memory> {
        let mut gained = Vec::new(alloc);
        let (Some(of), Some(own)) = (self.logs.get(self.last), self.logs.get(member)) else {
            return Ok(gained);
        };
        for asked in of.iter() {
            if is_among(&self.acknowledged, &asked.key) && !has(own, &asked.key) {
                gained.push(*asked)?;
            }
        }
        Ok(gained)
    }

    /// A member copied the log of the one that was elected last.
    fn follow(&mut self, alloc: Global, member: usize) -> Result<(), Memory> {
        if member == self.last {
            return Ok(());
        }
        let copy = self.copy_of_last(alloc)?;
        match self.logs.get_mut(member) {
            Some(log) => *log = copy,
            None => self.is_broken = true,
        }
        self.count(member);
        Ok(())
    }

    /// A copy of the log of the member that was elected last.
    fn copy_of_last(&self, alloc: Global) -> Result<Vec<Asked>, Memory> {
        match self.logs.get(self.last) {
            Some(log) => Vec::from_slice(alloc, log.as_slice()),
            None => Ok(Vec::new(alloc)),
        }
    }

    /// Counts how often commands stand in a log now.
    fn count(&mut self, member: usize) {
        let now = match self.logs.get(member) {
            Some(log) => greatest_count(log),
            None => 0,
        };
        self.most = self.most.max(now);
    }
}

/// How often a command stands in a log.
fn count_in(log: &[Asked], op: u32) -> u64 {
    log.iter().filter(|asked| asked.op == Some(op)).count() as u64
}

/// How often a command stands in a log at most. An entry that is of no command counts as a hundred.
fn greatest_count(log: &[Asked]) -> u64 {
    let mut most = 0;
    for asked in log {
        let count = match asked.op {
            Some(op) => count_in(log, op),
            None => 100,
        };
        most = most.max(count);
    }
    most
}

/// Whether a key is among these.
fn is_among(keys: &[Key], key: &Key) -> bool {
    keys.iter().any(|other| other.same(key))
}

/// Whether a log has an entry of the key.
fn has(log: &[Asked], key: &Key) -> bool {
    log.iter().any(|asked| asked.key.same(key))
}

/// Whether a log has these entries.
fn are_same(log: &[Asked], entries: &[LogEntry]) -> bool {
    log.len() == entries.len()
        && log
            .iter()
            .zip(entries.iter())
            .all(|(asked, entry)| is_same(asked, entry))
}

/// Whether the two are one entry.
fn is_same(asked: &Asked, entry: &LogEntry) -> bool {
    asked.stream == entry.stream && asked.nth == entry.nth && asked.key.same(&entry.key)
}
