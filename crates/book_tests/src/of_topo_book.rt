//! Each public call on its happy path. The crate `rule_cases` runs tables of offers.
use hello_reply::{ServerKind, default_unknown};
use host_name::Host;
use std::alloc::Global;
use std::test::Fail;
use topo_book::{Taken, TopoBook, offers_make_lists};
use topo_rules::{TopoEvent, TopoKind, Topology};

/// The book of one seed, and the reply of it as a router.
fn opened(alloc: Global) -> Result<(TopoBook, TopoEvent), Fail> {
    let host = Host::parse(alloc, "a")?;
    let mut description = default_unknown(alloc, &host)?;
    description.kind = ServerKind::Mongos;
    let hosts = [host];
    if !Topology::may_start(alloc, &hosts, false)? {
        return Err(Fail::from("no hosts to start with"));
    }
    let topology = Topology::start(alloc, &hosts, None, false)?;
    let reply = TopoEvent::Reply {
        description,
        sample: 1,
    };
    Ok((TopoBook::new(alloc, topology), reply))
}

#[test]
fn accepts_a_reply(rt: HostRuntime) -> Result<(), Fail> {
    let (mut book, reply) = opened(rt.alloc())?;
    let taken = book.offer(rt.alloc(), reply, 0)?;
    assert!(rt; matches!(taken, Taken::Accepted(_)));
    assert_eq!(rt; book.accepted().len(), 1);
    assert_eq!(rt; book.topology().kind(), TopoKind::Sharded);
    offers_make_lists();
    Ok(())
}
