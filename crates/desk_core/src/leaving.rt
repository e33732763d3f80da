ghost use Rattle.std.specs.Prelude.{◌≡◌, ◌≤◌, ◌+◌, ◌++◌, ◌∷◌, ℕ, List, None, Some, IfSome, false, filter_map, length, map, option_to_list, slice_get};
ghost use Rattle.std.specs.List.{IsDistinct, list_any};
ghost use Rattle.host_name.specs.Addresses.{Address, is_same_address};
ghost use Rattle.desk_trail.specs.Owed.{Owed};
ghost use Rattle.desk_trail.specs.Owed as owed;
ghost use Rattle.desk_trail.specs.States.{ServerState, Stays, number_of};
ghost use Rattle.desk_core.specs.Appends.{AppendsAside};
ghost use Rattle.desk_core.specs.Kept.{IsWriting};
ghost use Rattle.desk_core.specs.Rests.{KeepsChecks};
ghost use Rattle.desk_core.specs.Leaving.{Drops, is_of_host};
ghost use Rattle.desk_core.specs.Servers.{IsKeptServer, IsUntouched, TouchesOnly};
ghost use Rattle.desk_core.specs.Shutting.{KeepsUses};
ghost use Rattle.wired_trail.specs.Lines.{IsThere, KeepsOthers, line_at};

use crate::shutting::shut_available;
use crate::state::Core;
use desk_trail::Entry;
use host_name::Host;
use net_link::Net;
use server_state::Server;
use wired_trail::WiredTrail;

/// Closes a stream, where there is one.
fn close_where<N: Net>(wired: &mut WiredTrail<N>, stream: Option<u64>)
    requires { IfSome stream (λ s. IsThere wired.old.lines s) }
    ensures trail { wired.new.trail ≡ wired.old.trail }
    ensures others { IfSome stream (λ s. KeepsOthers s wired.old.lines wired.new.lines) }
    ensures gone { IfSome stream (λ s. line_at wired.new.lines s ≡ None) }
    ensures none { stream ≡ None → wired.new.lines ≡ wired.old.lines }
    ensures faults { N.faults wired.old.net ≤ N.faults wired.new.net }
{
    if let Some(stream) = stream {
        wired.close(stream);
    }
}

/// Writes that a server leaves the topology: it is dropped, its pool is closed, and the connections that were available in it are
/// shut. The streams of these and of its checks are closed. The server is as it was ahead of that.
fn write_leaving<N: Net>(wired: &mut WiredTrail<N>, server: &Server, host: u32, moment: u64)
    requires owes { (rest : List Owed) × (wired.old.trail.point.owed ≡ owed.Dropped host ∷ rest) }
    requires there { slice_get wired.old.trail.point.state.servers host ≡ Some server.now }
    requires kept { IsKeptServer wired.old.lines (length wired.old.trail.steps) host server.now }
    requires stays { server.now.has_left ≡ false }
    requires going { wired.old.trail.point.state.is_ending ≡ false }
    requires time { wired.old.trail.point.moment ≡ moment }
    requires room { length server.now.pool.state.available + 2 ≤ wired.old.trail.room.steps }
    ensures drops { Drops moment host server.now wired.old.trail wired.new.trail }
    ensures closed { IfSome server.now.check_stream (λ stream. line_at wired.new.lines stream ≡ None) }
    ensures uses { KeepsUses (is_of_host host) wired.old.lines wired.new.lines }
    ensures faults { N.faults wired.old.net ≤ N.faults wired.new.net }
    ensures appends { AppendsAside ⊥ moment wired.old.trail wired.new.trail }
{
    wired.append(moment, Entry::Dropped { host });
    wired.append(moment, Entry::PoolShut { host });
    shut_available(wired, server, host, moment);
    close_where(wired, server.check_stream());
}

impl<N: Net> Core<N> {
    /// A server leaves the topology: a check of it that runs ends, and its pool is closed, with the connections that are available
    /// (SDAM, Updating the TopologyDescription; CMAP, Closing a Connection Pool).
    pub fn drop_server(&mut self, moment: u64, host: u32)
        requires writing { (rest : List Owed) × (n : ℕ) × IsWriting self.old moment (n + 1) (owed.Dropped host ∷ rest) }
        requires stays { Stays self.old.trail.point.state host }
        ensures writing { (rest : List Owed) (n : ℕ) → IsWriting self.old moment (n + 1) (owed.Dropped host ∷ rest) → IsWriting self.new moment n rest }
        ensures others { (s : ServerState) → slice_get self.old.trail.point.state.servers host ≡ Some s
            → TouchesOnly s.address self.old.trail.point.state self.new.trail.point.state }
        ensures closed { (s : ServerState) → slice_get self.old.trail.point.state.servers host ≡ Some s
            → IfSome s.check_stream (λ stream. line_at self.new.lines stream ≡ None) }
        ensures checks { KeepsChecks self.old.trail.point.state self.new.trail.point.state }
        ensures names { self.new.trail.lists.names ≡ self.old.trail.lists.names }
        ensures faults { N.faults self.old.net ≤ N.faults self.new.net }
        ensures appends { AppendsAside ⊥ moment self.old.trail self.new.trail }
    {
        let server = &mut self.servers[host as usize];
        let closing = server.available().len() + 1;
        write_leaving(&mut self.wired, server, host, moment);
        server.leave();
        server.shut_pool(moment);
        self.closings -= closing;
    }

    /// The server of the host leaves the topology, where one stands there.
    fn drop_at(&mut self, moment: u64, host: &Host)
        requires writing { (rest : List Owed) × (n : ℕ)
            × IsWriting self.old moment (n + 1) (map (λ x. owed.Dropped x) (option_to_list (number_of self.old.trail.point.state host.now)) ++ rest) }
        ensures writing { (rest : List Owed) (n : ℕ)
            → IsWriting self.old moment (n + 1) (map (λ x. owed.Dropped x) (option_to_list (number_of self.old.trail.point.state host.now)) ++ rest)
            → IsWriting self.new moment n rest }
        ensures others { TouchesOnly host.now self.old.trail.point.state self.new.trail.point.state }
        ensures checks { KeepsChecks self.old.trail.point.state self.new.trail.point.state }
        ensures names { self.new.trail.lists.names ≡ self.old.trail.lists.names }
        ensures faults { N.faults self.old.net ≤ N.faults self.new.net }
        ensures appends { AppendsAside ⊥ moment self.old.trail self.new.trail }
    {
        if let Some(number) = self.number_of(host) {
            self.drop_server(moment, number);
        }
    }

    /// The servers of these hosts leave the topology, in this order.
    pub fn drop_all(&mut self, moment: u64, hosts: &[Host])
        requires writing { (rest : List Owed) × (n : ℕ)
            × IsWriting self.old moment (n + length hosts.now) (map (λ x. owed.Dropped x) (filter_map (number_of self.old.trail.point.state) hosts.now) ++ rest) }
        requires differ { IsDistinct is_same_address hosts.now }
        ensures writing { (rest : List Owed) (n : ℕ)
            → IsWriting self.old moment (n + length hosts.now) (map (λ x. owed.Dropped x) (filter_map (number_of self.old.trail.point.state) hosts.now) ++ rest)
            → IsWriting self.new moment n rest }
        ensures others { (a : Address) → list_any (λ h. is_same_address h a) hosts.now ≡ false
            → IsUntouched self.old.trail.point.state self.new.trail.point.state a }
        ensures checks { KeepsChecks self.old.trail.point.state self.new.trail.point.state }
        ensures names { self.new.trail.lists.names ≡ self.old.trail.lists.names }
        ensures faults { N.faults self.old.net ≤ N.faults self.new.net }
        ensures appends { AppendsAside ⊥ moment self.old.trail self.new.trail }
    {
        for host in hosts {
            self.drop_at(moment, host);
        }
    }
}
