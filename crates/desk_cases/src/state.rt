use crate::calls::Client;
use crate::facts::fact_of;
use crate::messages::Documents;
use crate::net::PeerNet;
use crate::peers::Peers;
use crate::scripts::Script;
use crate::steps::step_of;
use case_files::{CaseFault, Subject, Words};
use desk_core::Sight;
use std::alloc::Global;
use std::cell::{Cell, RefCell};

/// The peers, the documents that they send, and the client that talks to them.
#[derive(Drop)]
pub struct State<'a> {
    /// What the peers do.
    pub peers: &'a RefCell<Peers>,
    /// The documents that have names.
    pub documents: Documents,
    /// The commands of the next client.
    pub script: Script,
    /// The client.
    pub client: Client<PeerNet<'a>>,
    /// What the last step told.
    pub told: Told,
    /// The place of the entry that the next line is to name.
    pub next: Cell<usize>,
}

/// What a step told.
#[derive(Clone, Copy, Drop)]
pub enum Told {
    /// Nothing.
    Nothing,
    /// A count, with what it counts.
    Count(&'static str, usize),
    /// A message comes: its length, and to which request it is the answer.
    Message(usize, i32),
    /// The client was made, ended, or asked what is due.
    Client,
    /// A step of the client came to this.
    Sight(Sight),
    /// The command that comes next in a lane.
    Next(Option<u32>),
    /// A step of the client wanted memory.
    Memory,
}

impl<'a> State<'a> {
    /// No client yet, and peers that were told nothing.
    pub fn opened(peers: &'a RefCell<Peers>, alloc: Global) -> State<'a> {
        State {
            peers,
            documents: Documents::new(alloc),
            script: Script::new(alloc),
            client: Client::none(),
            told: Told::Nothing,
            next: Cell::new(0),
        }
    }

    /// Whether the client has entries that no line named.
    pub fn has_untold(&self) -> bool {
        self.next.get() < self.client.count()
    }

    /// Takes a step, behind which no word may be left.
    fn take(&mut self, alloc: Global, words: &mut Words<'_>) -> Result<(), CaseFault> {
        self.told = step_of(alloc, self, words)?;
        words.end(alloc)
    }
}

impl Subject for State<'_> {
    fn begin(&mut self, alloc: Global) -> Result<(), CaseFault> {
        let untold = self.has_untold();
        self.client = Client::none();
        self.documents = Documents::new(alloc);
        self.script = Script::new(alloc);
        self.told = Told::Nothing;
        self.next.set(0);
        if self.peers.try_replace(Peers::new(alloc)).is_err() {
            return Err(CaseFault::Refused("the peers are in use"));
        }
        if untold {
            return Err(CaseFault::Refused("entries behind the file ahead are not named"));
        }
        Ok(())
    }

    fn step(&mut self, alloc: Global, words: &mut Words<'_>) -> Result<(), CaseFault> {
        let untold = self.has_untold();
        self.next.set(self.client.count());
        let taken = self.take(alloc, words);
        if untold || taken.is_err() {
            self.next.set(self.client.count());
        }
        if untold {
            return Err(CaseFault::Refused("entries ahead of the step are not named"));
        }
        taken
    }

    fn fact(&self, alloc: Global, name: &str) -> Result<Option<String>, CaseFault> {
        fact_of(alloc, self, name)
    }
}
