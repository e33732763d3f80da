use bson_doc::Bytes;
use desk_trail::{Entry, Request, Step, Trail};
use host_name::Host;
use topo_rules::TopoEvent;

/// What a client did so far, and what its entries name.
#[derive(Clone, Copy, Drop)]
pub struct Log<'a> {
    pub names: &'a [Host],
    pub events: &'a [TopoEvent],
    pub requests: &'a [Request],
    pub steps: &'a [Step],
}

impl<'a> Log<'a> {
    /// That of a trail.
    pub fn of_trail(trail: &'a Trail) -> Log<'a> {
        Log {
            names: trail.names.as_slice(),
            events: trail.events.as_slice(),
            requests: trail.requests.as_slice(),
            steps: trail.steps.as_slice(),
        }
    }

    /// The number of the last host of that name.
    pub fn last_of(&self, name: &str) -> Option<u32> {
        let mut last = None;
        let mut number: u32 = 0;
        for host in self.names {
            if host.name() == name {
                last = Some(number);
            }
            number = number.saturating_add(1);
        }
        last
    }

    /// The id of the last request that was queued on a stream.
    pub fn asked_on(&self, stream: u64) -> Option<i32> {
        let mut last = None;
        for request in self.requests {
            if request.stream == stream {
                last = Some(request.id);
            }
        }
        last
    }
}
