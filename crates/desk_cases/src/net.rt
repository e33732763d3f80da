ghost use Rattle.std.specs.Prelude.{◌≡◌, ◌<◌, ◌≤◌, []};
ghost use Rattle.net_link.specs.Causes.{Rose, count_of, count_of-below};

use crate::peers::{DialPlan, Peers};
use net_link::{Came, Dialed, Net, Wrote};
use std::cell::RefCell;

/// A net whose peers do what they were told. It tells nothing.
#[derive(Drop)]
pub struct PeerNet<'a> {
    peers: &'a RefCell<Peers>,
    next: u64,
    faults: u64,
}

impl<'a> PeerNet<'a> {
    /// A net of which nothing was dialled yet.
    pub fn new(peers: &'a RefCell<Peers>) -> PeerNet<'a> {
        PeerNet {
            peers,
            next: 0,
            faults: 0,
        }
    }

    /// Counts a fault.
    fn fail(&mut self)
        ensures later { count_of self.old.faults ≤ count_of self.new.faults }
        ensures rose { Rose (count_of self.old.faults) (count_of self.new.faults) }
        ensures next { self.new.next ≡ self.old.next }
    {
        self.faults = self.faults.saturating_add(1);
    }

    /// What the dial of an address comes to, whose stream would have that number.
    fn plan(&self, address: &str, stream: u64) -> DialPlan {
        match self.peers.try_borrow_mut() {
            Ok(mut peers) => peers.dial(address, stream),
            Err(_) => DialPlan::Starved,
        }
    }
}

impl Net for PeerNet<'_> {
    ghost faults = { λ n. count_of n.faults };

    ghost is_open = { λ n t. t < n.next };

    ghost next = { λ n. n.next };

    ghost tells = { ⊥ };

    ghost history = { λ _. [] };

    ghost inbox = { λ _ _. [] };

    ghost has_ended = { λ _ _. ⊥ };

    ghost is_full = { λ _ _. ⊥ };

    ghost counts = { λ n. count_of-below n.faults };

    ghost below = { λ _ _ given. given };

    fn dial(&mut self, address: &str) -> Dialed {
        let stream = self.next;
        let Some(next) = stream.checked_add(1) else {
            return Dialed::Memory;
        };
        match self.plan(address, stream) {
            DialPlan::Opens => {
                self.next = next;
                Dialed::Stream(stream)
            }
            DialPlan::Refused => {
                self.fail();
                Dialed::Failed
            }
            DialPlan::Starved => Dialed::Memory,
        }
    }

    fn write(&mut self, stream: u64, bytes: &[u8]) -> Wrote {
        let wrote = match self.peers.try_borrow_mut() {
            Ok(mut peers) => peers.take(stream, bytes),
            Err(_) => Wrote::Memory,
        };
        if let Wrote::Failed = wrote {
            self.fail();
        }
        wrote
    }

    fn read(&mut self, stream: u64, into: &mut [u8]) -> Came {
        let came = match self.peers.try_borrow_mut() {
            Ok(mut peers) => peers.give(stream, into),
            Err(_) => Came::Memory,
        };
        if let Came::Failed = came {
            self.fail();
        }
        came
    }

    fn close(&mut self, stream: u64) {
        if let Ok(mut peers) = self.peers.try_borrow_mut() {
            peers.close(stream);
        }
    }
}
