ghost use Rattle.script_text.specs.Bounds.{IsBounded};

use crate::log::Log;
use crate::net::PeerNet;
use crate::peers::Peers;
use crate::state::Told;
use bson_doc::Rows;
use case_files::{CaseFault, parsed};
use cmd_build::Command;
use conn_uri::{Settings, UriFault, parse};
use desk_core::{Desk, Due, Finished};
use desk_trail::Trail;
use net_link::Net;
use server_pick::KeepAll;
use std::alloc::Global;
use std::cell::RefCell;
use topo_rules::Topology;

/// The most bytes of a connection string.
const MOST: usize = 16_777_216;

/// A client: while it did not end, its core; behind its end, what it left. It opened with a topology.
#[derive(Drop)]
pub struct Client<N: Net> {
    pub(crate) desk: Option<Desk<N, KeepAll>>,
    left: Option<Trail>,
    opening: Option<Topology>,
    stopped: bool,
}

/// The client of a connection string and of commands, made at a moment, over a net of these peers, who forget what they were told.
pub fn made<'a>(
    alloc: Global,
    peers: &'a RefCell<Peers>,
    text: &str,
    commands: Rows<Command>,
    moment: u64,
) -> Result<Client<PeerNet<'a>>, CaseFault>
    requires bounded { IsBounded commands }
{
    let settings = settings_of(alloc, text)?;
    let opening = opening_of(alloc, &settings)?;
    if peers.try_replace(Peers::new(alloc)).is_err() {
        return Err(CaseFault::Refused("the peers are in use"));
    }
    let net = PeerNet::new(peers);
    match Desk::new(alloc, net, settings, commands, KeepAll, moment) {
        Ok(desk) => Ok(Client {
            desk: Some(desk),
            left: None,
            opening: Some(opening),
            stopped: false,
        }),
        Err(_) => Err(CaseFault::Memory),
    }
}

/// The settings of a connection string.
fn settings_of(alloc: Global, text: &str) -> Result<Settings, CaseFault> {
    if text.len() > MOST {
        return Err(CaseFault::Refused("the text is too long"));
    }
    match parse(alloc, text) {
        Ok(settings) => Ok(settings),
        Err(UriFault::Memory) => Err(CaseFault::Memory),
        Err(_) => Err(CaseFault::form(alloc, text)),
    }
}

/// The topology that a client of these settings opens with.
fn opening_of(alloc: Global, settings: &Settings) -> Result<Topology, CaseFault> {
    let name = settings.set_name.as_ref().map(|name| name.as_str());
    Ok(Topology::start(alloc, settings.hosts.as_slice(), name, settings.direct)?)
}

impl<N: Net + Drop> Client<N> {
    /// None was made.
    pub fn none() -> Client<N> {
        Client {
            desk: None,
            left: None,
            opening: None,
            stopped: false,
        }
    }

    /// What it did; none where none was made.
    pub fn log(&self) -> Option<Log<'_>> {
        match (&self.desk, &self.left) {
            (Some(desk), _) => Some(Log {
                names: desk.names(),
                events: desk.events(),
                requests: desk.requests(),
                steps: desk.steps(),
            }),
            (None, Some(trail)) => Some(Log::of_trail(trail)),
            (None, None) => None,
        }
    }

    /// How many entries it wrote.
    pub fn count(&self) -> usize {
        match self.log() {
            Some(log) => log.steps.len(),
            None => 0,
        }
    }

    /// Steps the check of a host, `NAME` for the last one of that name or `NAME/NUMBER`.
    pub fn check(&mut self, alloc: Global, word: &str, moment: u64) -> Result<Told, CaseFault> {
        let host = self.number_of(alloc, word)?;
        let Some(desk) = &mut self.desk else {
            return Err(CaseFault::Refused("no client is there"));
        };
        if desk.is_stopped() {
            return Err(CaseFault::Refused("the client stopped"));
        }
        match desk.step_check(alloc, host, moment) {
            Ok(sight) => Ok(Told::Sight(sight)),
            Err(_) => Ok(Told::Memory),
        }
    }

    /// The number of a host. One that was not named goes by the name `none`.
    fn number_of(&self, alloc: Global, word: &str) -> Result<u32, CaseFault> {
        let Some(log) = self.log() else {
            return Err(CaseFault::Refused("no client is there"));
        };
        let Some((name, number)) = word.split_once('/') else {
            return log.last_of(word).ok_or(CaseFault::form(alloc, word));
        };
        let number: u32 = parsed(alloc, number)?;
        let found = match log.names.get(number as usize) {
            Some(host) => host.name(),
            None => "none",
        };
        if found == name {
            Ok(number)
        } else {
            Err(CaseFault::form(alloc, word))
        }
    }

    /// The check that comes next; none where the client ended or stopped.
    pub fn next_due(&self) -> Option<Option<Due>> {
        match &self.desk {
            Some(desk) if !desk.is_stopped() => Some(desk.next_due()),
            _ => None,
        }
    }

    /// Whether it stopped for want of memory; none where no client is there.
    pub fn is_stopped(&self) -> Option<bool> {
        match (&self.desk, &self.left) {
            (Some(desk), _) => Some(desk.is_stopped()),
            (None, Some(_)) => Some(self.stopped),
            (None, None) => None,
        }
    }

    /// The topology that it opened with.
    pub fn opening(&self) -> Option<&Topology> {
        self.opening.as_ref()
    }

    /// Ends it, where it was made and did not end.
    pub fn finish(&mut self, alloc: Global, moment: u64) -> Result<Told, CaseFault> {
        let Some(desk) = self.desk.take() else {
            return Err(CaseFault::Refused("no client is there that did not end"));
        };
        let (trail, stopped) = ended(alloc, desk, moment);
        self.left = Some(trail);
        self.stopped = stopped;
        Ok(Told::Client)
    }
}

/// What a client leaves at its end, and whether it had stopped.
fn ended<N: Net + Drop>(alloc: Global, desk: Desk<N, KeepAll>, moment: u64) -> (Trail, bool) {
    let Finished { trail, stopped, .. } = desk.finish(alloc, moment);
    (trail, stopped)
}
