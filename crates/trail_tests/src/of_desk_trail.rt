//! Each public call on its happy path. Trails that are legal, and some that are not, stand in the crate `trail_worked`.
ghost use Rattle.std.specs.Prelude.{◌≡◌};
ghost use Rattle.desk_trail.specs.Written.{no_lists};

use bson_doc::{Bytes, Lsid};
use desk_trail::{CheckHow, Entry, OfferedHow, Purpose, Request, Room, Step, TrailWriter, laws};
use host_name::Host;
use std::alloc::Global;
use std::test::Fail;
use topo_rules::TopoEvent;

/// A check of one server, which ended by a broken connection, and a session.
fn write_check(alloc: Global, writer: &mut TrailWriter) -> Result<(), Fail>
    requires { writer.old.lists ≡ no_lists }
{
    writer.reserve(Room {
        names: 1,
        events: 1,
        sessions: 1,
        requests: 1,
        steps: 6,
    })?;
    writer.name(5, Host::parse(alloc, "a")?);
    writer.append(6, Entry::CheckBegan { host: 0, stream: 9 });
    writer.ask(6, hello(alloc));
    writer.append(
        7,
        Entry::CheckEnded {
            host: 0,
            how: CheckHow::Cut,
        },
    );
    let host = Host::parse(alloc, "a")?;
    writer.offer(7, broken(host), OfferedHow::Accepted { differs: false });
    writer.lease(8, 3, Lsid([7; 16]));
    Ok(())
}

/// The request of a check.
fn hello(alloc: Global) -> Request {
    Request {
        stream: 9,
        id: 1,
        purpose: Purpose::Check { host: 0 },
        bytes: Bytes::new(alloc),
    }
}

fn broken(host: Host) -> TopoEvent {
    TopoEvent::Broken {
        host,
        generation: None,
    }
}

/// How many of each were written: names, events, sessions, requests, steps.
fn counts(writer: &TrailWriter) -> [usize; 5] {
    [
        writer.names().len(),
        writer.events().len(),
        writer.sessions().len(),
        writer.requests().len(),
        writer.steps().len(),
    ]
}

/// How many steps, and the moments of the first and the last one.
fn ends(steps: &[Step]) -> (usize, Option<u64>, Option<u64>) {
    (
        steps.len(),
        steps.first().map(|step| step.moment),
        steps.last().map(|step| step.moment),
    )
}

#[test]
fn what_is_written_stands_in_order(rt: HostRuntime) -> Result<(), Fail> {
    let mut writer = TrailWriter::new(rt.alloc());
    write_check(rt.alloc(), &mut writer)?;
    let written = counts(&writer);
    let trail = writer.into_trail();
    let ends = ends(trail.steps.as_slice());
    drop(trail);
    assert!(rt; written == [1, 1, 1, 1, 6]);
    assert!(rt; ends == (6, Some(5), Some(8)));
    Ok(())
}

#[test]
fn laws_are_called(rt: HostRuntime) {
    laws::places::a_trail_is_legal_place_by_place();
    laws::places::the_front_of_a_legal_trail_is_legal();
    laws::places::a_legal_trail_is_legal_by_longer_lists();
    laws::places::moments_never_fall();
    laws::places::what_is_owed_comes_next();
    laws::pools::each_pool_has_its_trail();
    laws::pools::each_command_is_where_its_pool_has_it();
    laws::pools::no_two_commands_have_one_ticket();
    laws::pools::no_connection_is_lent_to_two();
    laws::pools::each_lent_connection_was_free();
    laws::pools::each_lent_connection_is_current();
    laws::sessions::sessions_have_their_history();
    laws::sessions::a_command_draws_once();
    laws::sessions::a_session_is_one_commands();
    laws::sessions::no_number_is_drawn_twice();
    laws::topology::the_topology_is_of_its_accepted_events();
    laws::topology::means_are_of_samples();
    laws::commands::each_command_has_its_history();
    laws::commands::each_answer_is_the_verdict_on_the_attempts();
    laws::commands::behind_its_answer_no_entry_is_of_a_command();
}
