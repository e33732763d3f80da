ghost use Rattle.std.specs.Prelude.{◌≡◌, ◌≤◌, ◌<◌, ◌+◌, ◌^◌, ◌++◌, ◌∷◌, ℕ, List, Some, false, true, length, slice_get};
ghost use Rattle.std.specs.Option.{option_and_then};
ghost use Rattle.host_name.specs.Addresses.{Address};
ghost use Rattle.desk_trail.specs.Owed.{Owed};
ghost use Rattle.desk_trail.specs.Owed as owed;
ghost use Rattle.desk_trail.specs.States.{ServerState, number_of};
ghost use Rattle.desk_trail.specs.Topologies.{cleared, generation_for, generation_in, is_paused_at, readied, server_with};
ghost use Rattle.desk_core.specs.Appends.{AppendsAside};
ghost use Rattle.desk_core.specs.Kept.{IsWriting};
ghost use Rattle.desk_core.specs.Rests.{KeepsChecks};

use crate::state::Core;
use desk_trail::{Entry, Step};
use host_name::Host;
use net_link::Net;

/// Entries are fewer than 2^64.
pub fn few(steps: &[Step])
    ensures { length steps.now < 2 ^ 64 }
{}

impl<N: Net> Core<N> {
    /// The generation of the pool of the server that stands in the topology with that address, 0 where none does.
    pub fn generation_of(&self, host: &Host) -> u64
        requires { self.now.is_stopped ≡ false }
        ensures { result ≡ generation_in (server_with self.now.trail.point.state host.now) }
    {
        match self.number_of(host) {
            Some(number) => self.servers[number as usize].generation(),
            None => 0,
        }
    }

    /// A paused pool is made ready (CMAP, Marking a Connection Pool as Ready).
    pub fn ready_pool(&mut self, moment: u64, host: u32)
        requires writing { (rest : List Owed) × (n : ℕ) × IsWriting self.old moment (n + 1) (owed.PoolReady host ∷ rest) }
        requires paused { is_paused_at self.old.trail.point.state host ≡ true }
        ensures writing { (rest : List Owed) (n : ℕ) → IsWriting self.old moment (n + 1) (owed.PoolReady host ∷ rest) → IsWriting self.new moment n rest }
        ensures numbers { (a : Address) → number_of self.new.trail.point.state a ≡ number_of self.old.trail.point.state a }
        ensures checks { KeepsChecks self.old.trail.point.state self.new.trail.point.state }
        ensures names { self.new.trail.lists.names ≡ self.old.trail.lists.names }
        ensures faults { N.faults self.old.net ≤ N.faults self.new.net }
        ensures appends { AppendsAside ⊥ moment self.old.trail self.new.trail }
    {
        self.wired.append(moment, Entry::PoolReady { host });
        let server = &mut self.servers[host as usize];
        server.ready_pool(moment);
    }

    /// A pool is cleared (CMAP, Clearing a Connection Pool).
    pub fn clear_pool(&mut self, moment: u64, host: u32)
        requires writing { (rest : List Owed) × (n : ℕ) × IsWriting self.old moment (n + 1) (owed.PoolClear host ∷ rest) }
        requires there { (s : ServerState) × (slice_get self.old.trail.point.state.servers host ≡ Some s) }
        ensures writing { (rest : List Owed) (n : ℕ) → IsWriting self.old moment (n + 1) (owed.PoolClear host ∷ rest) → IsWriting self.new moment n rest }
        ensures checks { KeepsChecks self.old.trail.point.state self.new.trail.point.state }
        ensures names { self.new.trail.lists.names ≡ self.old.trail.lists.names }
        ensures faults { N.faults self.old.net ≤ N.faults self.new.net }
        ensures appends { AppendsAside ⊥ moment self.old.trail self.new.trail }
    {
        few(self.wired.steps());
        self.wired.append(moment, Entry::PoolClear { host });
        let server = &mut self.servers[host as usize];
        server.clear_pool(moment);
    }

    /// The pool of the host is made ready, where it is paused.
    pub fn ready_at(&mut self, moment: u64, host: &Host)
        requires writing { (rest : List Owed) × (n : ℕ)
            × IsWriting self.old moment (n + 1) (readied self.old.trail.point.state (number_of self.old.trail.point.state host.now) ++ rest) }
        ensures writing { (rest : List Owed) (n : ℕ)
            → IsWriting self.old moment (n + 1) (readied self.old.trail.point.state (number_of self.old.trail.point.state host.now) ++ rest)
            → IsWriting self.new moment n rest }
        ensures numbers { (a : Address) → number_of self.new.trail.point.state a ≡ number_of self.old.trail.point.state a }
        ensures checks { KeepsChecks self.old.trail.point.state self.new.trail.point.state }
        ensures names { self.new.trail.lists.names ≡ self.old.trail.lists.names }
        ensures faults { N.faults self.old.net ≤ N.faults self.new.net }
        ensures appends { AppendsAside ⊥ moment self.old.trail self.new.trail }
    {
        if let Some(number) = self.number_of(host) {
            if self.servers[number as usize].is_paused() {
                self.ready_pool(moment, number);
            }
        }
    }

    /// The pool of the host is cleared.
    pub fn clear_at(&mut self, moment: u64, host: &Host)
        requires writing { (rest : List Owed) × (n : ℕ)
            × IsWriting self.old moment (n + 1) (cleared (number_of self.old.trail.point.state host.now) ++ rest) }
        ensures writing { (rest : List Owed) (n : ℕ)
            → IsWriting self.old moment (n + 1) (cleared (number_of self.old.trail.point.state host.now) ++ rest)
            → IsWriting self.new moment n rest }
        ensures checks { KeepsChecks self.old.trail.point.state self.new.trail.point.state }
        ensures names { self.new.trail.lists.names ≡ self.old.trail.lists.names }
        ensures faults { N.faults self.old.net ≤ N.faults self.new.net }
        ensures appends { AppendsAside ⊥ moment self.old.trail self.new.trail }
    {
        if let Some(number) = self.number_of(host) {
            self.clear_pool(moment, number);
        }
    }

    /// The pool of the host, where there is one, is made ready, where it is paused.
    pub fn ready_some(&mut self, moment: u64, host: &Option<Host>)
        requires writing { (rest : List Owed) × (n : ℕ) × IsWriting self.old moment (n + 1)
            (readied self.old.trail.point.state (option_and_then (number_of self.old.trail.point.state) host.now) ++ rest) }
        ensures writing { (rest : List Owed) (n : ℕ) → IsWriting self.old moment (n + 1)
            (readied self.old.trail.point.state (option_and_then (number_of self.old.trail.point.state) host.now) ++ rest)
            → IsWriting self.new moment n rest }
        ensures numbers { (a : Address) → number_of self.new.trail.point.state a ≡ number_of self.old.trail.point.state a }
        ensures checks { KeepsChecks self.old.trail.point.state self.new.trail.point.state }
        ensures names { self.new.trail.lists.names ≡ self.old.trail.lists.names }
        ensures faults { N.faults self.old.net ≤ N.faults self.new.net }
        ensures appends { AppendsAside ⊥ moment self.old.trail self.new.trail }
    {
        if let Some(host) = host {
            self.ready_at(moment, host);
        }
    }

    /// The pool of the host, where there is one, is cleared.
    pub fn clear_some(&mut self, moment: u64, host: &Option<Host>)
        requires writing { (rest : List Owed) × (n : ℕ)
            × IsWriting self.old moment (n + 1) (cleared (option_and_then (number_of self.old.trail.point.state) host.now) ++ rest) }
        ensures writing { (rest : List Owed) (n : ℕ)
            → IsWriting self.old moment (n + 1) (cleared (option_and_then (number_of self.old.trail.point.state) host.now) ++ rest)
            → IsWriting self.new moment n rest }
        ensures checks { KeepsChecks self.old.trail.point.state self.new.trail.point.state }
        ensures names { self.new.trail.lists.names ≡ self.old.trail.lists.names }
        ensures faults { N.faults self.old.net ≤ N.faults self.new.net }
        ensures appends { AppendsAside ⊥ moment self.old.trail self.new.trail }
    {
        if let Some(host) = host {
            self.clear_at(moment, host);
        }
    }
}
