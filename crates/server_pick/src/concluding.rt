ghost use Rattle.std.specs.Prelude.{◌≡◌, ◌≤◌, [], All, IfSome, length, map as map_lem, option_copied, string_bytes, string_capacity};
ghost use Rattle.server_pick.specs.Concluded.{chosen_picked, outcome};
ghost use Rattle.server_pick.specs.Prepared.{HasRoomAt};
ghost use Rattle.server_pick.specs.Windows.{choice, window};

use crate::choice::choose;
use crate::preparing::Room;
use crate::{Candidate, Picked};
use bson_doc::{Buffer, Rows};
use host_name::Host;
use std::collections::VecDeque;

/// The chosen one's host, copied into the room for its name; none fits where none is chosen.
fn chosen(candidate: Option<&Candidate>, name: String) -> Picked
    requires empty { string_bytes name ≡ [] }
    requires room { IfSome candidate (λ c. HasRoomAt (string_capacity name) c.now) }
    ensures { result ≡ chosen_picked (option_copied candidate.entry) }
{
    let Some(candidate) = candidate else {
        return Picked::NoneFits;
    };
    match candidate.host.copy_into(name) {
        Ok(host) => Picked::Chosen(host),
        Err(_) => Picked::Memory,
    }
}

/// The hosts of the candidates, in the room for them.
fn hosts_of(kept: Vec<Candidate>, room: Buffer<Host>) -> Rows<Host>
    requires empty { room.items ≡ [] }
    requires room { length kept.items ≤ room.room }
    ensures { result ≡ map_lem (λ c. c.host) kept.items }
{
    let count = kept.len();
    let mut left = VecDeque::from(kept);
    let mut hosts = room;
    for place in 0..count {
        if let Some(candidate) = left.pop_front() {
            let Candidate { host, .. } = candidate;
            hosts.put(host);
        }
    }
    hosts.into_rows()
}

/// What is told of the candidates that were kept, and their hosts. It takes no memory.
pub fn conclude(
    room: Room,
    kept: Vec<Candidate>,
    threshold: u64,
    w1: u64,
    w2: u64,
) -> (Picked, Rows<Host>)
    requires hosts_empty { room.hosts.items ≡ [] }
    requires hosts_room { length kept.items ≤ room.hosts.room }
    requires name_empty { string_bytes room.name ≡ [] }
    requires name_room { All (HasRoomAt (string_capacity room.name)) kept.items }
    ensures picked { result.0 ≡ outcome room.misfit (choice (λ c. c.in_flight) w1 w2 (window (λ c. c.mean) threshold kept.items)) }
    ensures hosts { result.1 ≡ map_lem (λ c. c.host) kept.items }
{
    let Room {
        hosts,
        name,
        misfit,
    } = room;
    let best = choose(kept.as_slice(), threshold, w1, w2);
    let fitting = chosen(best, name);
    let picked = match misfit {
        Some(told) => told,
        None => fitting,
    };
    (picked, hosts_of(kept, hosts))
}
