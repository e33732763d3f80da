ghost use Rattle.std.specs.Prelude.{◌≡◌, ◌≤◌, ◌<◌, ◌^◌, [], Some, length, IfSome, IsSome};
ghost use Rattle.std.specs.List.{All};
ghost use Rattle.desk_trail.specs.Looks.{AreNumbersOf};
ghost use Rattle.desk_trail.specs.States.{ClientState, number_from};

use bson_doc::{Buffer, Rows};
use host_name::Host;
use server_state::Server;

/// The number of the server that stands in the topology with that address.
pub fn number_of(servers: &[Server], host: &Host) -> Option<usize>
    ensures number { result ≡ number_from 0 servers.now host.now }
    ensures within { IfSome result (λ number. number < length servers.now) }
{
    let mut place: usize = 0;
    'seeking: while place < servers.len() {
        if servers[place].is_at(host) {
            return Some(place);
        }
        place += 1;
    }
    None
}

/// The number of a server of the topology.
pub fn number_at(servers: &[Server], host: &Host) -> u32
    requires few { length servers.now ≤ 2 ^ 32 }
    requires named { IsSome (number_from 0 servers.now host.now) }
    ensures number { number_from 0 servers.now host.now ≡ Some result }
{
    match number_of(servers, host) {
        Some(number) => number as u32,
        None => 0,
    }
}

/// The numbers of servers of the topology, within room that was taken.
pub fn numbers_of(servers: &[Server], hosts: &[Host], room: Buffer<u32>) -> Rows<u32>
    requires few { length servers.now ≤ 2 ^ 32 }
    requires named { All (λ host. IsSome (number_from 0 servers.now host)) hosts.now }
    requires empty { room.items ≡ [] }
    requires room { length hosts.now ≤ room.room }
    ensures numbers { (w : ClientState) → w.servers ≡ servers.now → AreNumbersOf w result hosts.now }
{
    let mut numbers = room;
    let mut place: usize = 0;
    'numbering: while place < hosts.len() {
        numbers.put(number_at(servers, &hosts[place]));
        place += 1;
    }
    numbers.into_rows()
}
