//! The first worked trail as code writes it, with ample memory.
use bson_doc::Bytes;
use desk_trail::{Purpose, Request};
use host_name::Host;
use std::alloc::Global;
use std::test::Fail;
use topo_rules::TopoEvent;
use trail_worked::writing::{Told, one_insert_written};

/// A request of no bytes.
fn request(alloc: Global, stream: u64, id: i32, purpose: Purpose) -> Request {
    Request {
        stream,
        id,
        purpose,
        bytes: Bytes::new(alloc),
    }
}

/// What is told of one insert.
fn told(alloc: Global) -> Result<Told, Fail> {
    let seed = Host::parse(alloc, "alone")?;
    let host = Host::parse(alloc, "alone")?;
    Ok(Told {
        seed,
        reply: TopoEvent::Broken {
            host,
            generation: None,
        },
        hello: request(alloc, 1, 1, Purpose::Check { host: 0 }),
        greeting: request(alloc, 2, 2, Purpose::Greeting { host: 0, conn: 1 }),
        insert: request(alloc, 2, 3, Purpose::Command { op: 0 }),
    })
}

#[test]
fn one_insert_is_written(rt: HostRuntime) -> Result<(), Fail> {
    let told = told(rt.alloc())?;
    let trail = one_insert_written(rt.alloc(), told)?;
    let written = (trail.steps.len(), trail.requests.len());
    drop(trail);
    assert!(rt; written == (16, 3));
    Ok(())
}
