//! Each public call on its happy path, with a picker and loads of their own types. The crate `rule_cases` runs tables.
use bson_doc::{Rows, Text};
use hello_reply::{ServerDescription, ServerKind, default_unknown};
use host_name::Host;
use read_pref::{Mode, ReadPref};
use server_pick::{Candidate, Criteria, KeepAll, Loads, Need, Picked, Picker, pick, pick_by};
use std::alloc::Global;
use std::test::Fail;
use topo_rules::{TopoEvent, Topology};

/// Every server has as many operations in flight as its port tells.
struct ByPort;

impl Loads for ByPort {
    ghost use Rattle.host_name.specs.Addresses.{Address};

    ghost load = { λ _ host. host.port };

    fn in_flight(&self, host: &Host) -> u32 {
        u32::from(host.port())
    }
}

/// Allows hosts other than the one of this port.
#[derive(Drop)]
struct AllBut(u16);

impl Picker for AllBut {
    ghost use Rattle.std.specs.Prelude.{◌≡◌, not, ◌==◌};

    ghost allows = { λ p c. not (c.host.port == p.0) };

    ghost follows = { λ p _ q. q ≡ p };

    fn keep(&mut self, candidate: &Candidate) -> bool {
        !(candidate.host.port() == self.0)
    }
}

/// A set of a primary and a secondary, both of which answered in the same time.
fn set(alloc: Global) -> Result<Topology, Fail> {
    let hosts = [Host::parse(alloc, "h:1")?, Host::parse(alloc, "h:2")?];
    if !Topology::may_start(alloc, &hosts, false)? {
        return Err(Fail::from("no hosts to start with"));
    }
    let mut topology = Topology::start(alloc, &hosts, Some("rs"), false)?;
    take_in(alloc, &mut topology, &hosts, 0, ServerKind::Primary)?;
    take_in(alloc, &mut topology, &hosts, 1, ServerKind::Secondary)?;
    Ok(topology)
}

/// Takes in the reply of the host at a place as a member of this kind.
fn take_in(
    alloc: Global,
    topology: &mut Topology,
    hosts: &[Host; 2],
    place: usize,
    kind: ServerKind,
) -> Result<(), Fail> {
    let event = reply(alloc, hosts, place, kind)?;
    if topology.find(event.host()).is_none() {
        return Err(Fail::from("no such host"));
    }
    topology.apply(alloc, &event)?;
    Ok(())
}

/// The reply of the host at a place as a member of this kind that lists all.
fn reply(
    alloc: Global,
    hosts: &[Host; 2],
    place: usize,
    kind: ServerKind,
) -> Result<TopoEvent, Fail> {
    let host = hosts.get(place).ok_or("no such place")?;
    let mut description = default_unknown(alloc, host)?;
    description.kind = kind;
    description.max_wire = 21;
    list(alloc, &mut description, hosts)?;
    Ok(TopoEvent::Reply {
        description,
        sample: 10,
    })
}

/// Has a description name the set and list these hosts.
fn list(alloc: Global, description: &mut ServerDescription, hosts: &[Host; 2]) -> Result<(), Fail> {
    description.set_name = Some(Text::take(alloc, "rs")?);
    for listed in hosts.iter() {
        description.listed.push(listed.copy(alloc)?)?;
    }
    Ok(())
}

/// Reads by this preference, and so long a window.
fn reading(preference: &ReadPref) -> Criteria<'_> {
    Criteria {
        need: Need::Read(preference),
        avoid: None,
        threshold_micros: 15_000,
    }
}

/// The port of the host that was chosen.
fn chosen_port(picked: &Picked) -> Option<u16> {
    match picked {
        Picked::Chosen(host) => Some(host.port()),
        _ => None,
    }
}

#[test]
fn servers_are_picked_by_types(rt: HostRuntime) -> Result<(), Fail> {
    let topology = set(rt.alloc())?;
    let nearest = ReadPref::new(Mode::Nearest, Rows::new(rt.alloc()))?;
    let mut kept = Rows::new(rt.alloc());
    let picked = pick_by(
        rt.alloc(),
        &topology,
        &reading(&nearest),
        &mut KeepAll,
        &ByPort,
        1,
        0,
        &mut kept,
    );
    assert_eq!(rt; (chosen_port(&picked), kept.len()), (Some(1), 2));
    Ok(())
}

#[test]
fn pickers_keep_some(rt: HostRuntime) -> Result<(), Fail> {
    let topology = set(rt.alloc())?;
    let nearest = ReadPref::new(Mode::Nearest, Rows::new(rt.alloc()))?;
    let mut kept = Rows::new(rt.alloc());
    let picked = pick_by(
        rt.alloc(),
        &topology,
        &reading(&nearest),
        &mut AllBut(1),
        &ByPort,
        0,
        0,
        &mut kept,
    );
    assert_eq!(rt; (chosen_port(&picked), kept.len()), (Some(2), 1));
    Ok(())
}

/// The port of the host that is chosen for a write by a picker, where one is, whether none fits, and how many servers are kept.
fn picked_for_a_write(
    alloc: Global,
    topology: &Topology,
    picker: &mut AllBut,
    word: u64,
) -> (Option<u16>, bool, usize) {
    let mut kept = Rows::new(alloc);
    let writing = Criteria {
        need: Need::Write,
        avoid: None,
        threshold_micros: 0,
    };
    let picked = pick(
        alloc, topology, &writing, picker, &ByPort, word, word, &mut kept,
    );
    (
        chosen_port(&picked),
        matches!(picked, Picked::NoneFits),
        kept.len(),
    )
}

#[test]
fn servers_are_picked_by_objects(rt: HostRuntime) -> Result<(), Fail> {
    let topology = set(rt.alloc())?;
    let first = picked_for_a_write(rt.alloc(), &topology, &mut AllBut(2), 7);
    let none = picked_for_a_write(rt.alloc(), &topology, &mut AllBut(1), 0);
    assert_eq!(rt; first, (Some(1), false, 1));
    assert_eq!(rt; none, (None, true, 0));
    Ok(())
}
