//! Farewells are asked on the connections of servers, one after another (Driver Sessions, endSessions).
ghost use Rattle.std.specs.Prelude.{◌≡◌, ◌≤◌, ◌<◌, ◌+◌, ℕ, true, false, None, Some, length, nat_eq, slice_get, IfNone, IfOk, IfSome, OnOk};
ghost use Rattle.wired_trail.specs.Hearing.{told_of};
ghost use Rattle.std.specs.List.{list_any};
ghost use Rattle.end_sessions.specs.Carriers.{AreReadable, Carries, IsAsked, IsToAsk, IsToAskAt};
ghost use Rattle.end_sessions.specs.Farewells.{IsFreeOn, MayCarry};
ghost use Rattle.pool_book.specs.declared.connections.Available.{Available as Connection};

use crate::Memory;
use crate::hosts::is_among;
use bson_doc::{Lsid, Rows};
use desk_trail::Room;
use host_name::Host;
use net_link::Net;
use pool_book::Available;
use request_build::farewell_request;
use server_state::Server;
use std::alloc::{AllocError, Global};
use wired_trail::WiredTrail;

/// What farewells are asked by.
#[derive(Clone, Copy)]
pub struct Asking<'a> {
    /// The hosts to which they may go.
    pub hosts: &'a [Host],
    /// The lists of ids, one for each farewell.
    pub lists: &'a [Rows<Lsid>],
    /// For how many entries room is to be left.
    pub closings: usize,
    /// When they are asked, in microseconds.
    pub moment: u64,
}

/// A connection that is available, with its server.
#[derive(Clone, Copy)]
struct Carrier<'a> {
    server: &'a Server,
    free: Available,
}

/// Room for one request beside so many entries.
fn room_for(closings: usize) -> Result<Room, Memory>
    ensures { IfOk result (λ room. room ≡ record { names = 0; events = 0; sessions = 0; requests = 1; steps = closings + 1 }) }
{
    let steps = closings.checked_add(1).ok_or(AllocError)?;
    Ok(Room {
        names: 0,
        events: 0,
        sessions: 0,
        requests: 1,
        steps,
    })
}

/// The stream of a connection on which a farewell may go out, where that carries none yet.
fn free_stream<N: Net>(
    wired: &WiredTrail<N>,
    carrier: Carrier<'_>,
    moment: u64,
    carriers: &[u64],
) -> Option<u64>
    ensures free { IfSome result (IsFreeOn carrier.entry.server.now carrier.entry.free wired.now.lines moment) }
    ensures unused { IfSome result (λ stream. list_any (nat_eq stream) carriers.now ≡ false) }
    ensures none { IfNone result ((stream : ℕ) → IsFreeOn carrier.entry.server.now carrier.entry.free wired.now.lines moment stream
        → list_any (nat_eq stream) carriers.now ≡ true) }
{
    if carrier.server.is_perished(&carrier.free, moment) {
        return None;
    }
    let stream = carrier.server.stream_of(carrier.free.conn)?;
    if !wired.is_idle(stream) || carriers.contains(&stream) {
        return None;
    }
    Some(stream)
}

/// Each request on a stream that is to carry a farewell was answered.
fn check_free<N: Net>(wired: &WiredTrail<N>, stream: u64) -> Result<(), Memory>
    ensures free { OnOk result (N.tells → (told_of wired.now.trail stream).last ≡ None) }
{
    if wired.is_free(stream) {
        Ok(())
    } else {
        // (cannot be: a connection is available again only where its last request was answered)
        Err(AllocError)
    }
}

/// Asks the next farewell on a stream, and sends what the net takes of it now.
fn ask_on<N: Net>(
    alloc: Global,
    wired: &mut WiredTrail<N>,
    asking: Asking<'_>,
    stream: u64,
    carriers: &mut Vec<u64>,
) -> Result<(), Memory>
    requires ready { IsToAsk wired.old.trail asking.closings asking.moment asking.lists.now carriers.old.items }
    requires left { length carriers.old.items < length asking.lists.now }
    requires may { MayCarry wired.old.trail.point.state wired.old.lines asking.moment stream }
    requires unused { list_any (nat_eq stream) carriers.old.items ≡ false }
    ensures carries { Carries asking.entry.moment asking.entry.closings wired.old wired.new carriers.old.items carriers.new.items }
    ensures few { length carriers.new.items ≤ length asking.entry.lists.now }
    ensures asked { OnOk result (list_any (nat_eq stream) carriers.new.items ≡ true) }
    ensures faults { N.faults wired.old.net ≤ N.faults wired.new.net }
{
    carriers.reserve(1)?;
    let ids = &asking.lists[carriers.len()];
    let place = wired.requests().len();
    let made = farewell_request(alloc, ids, stream, place)?;
    wired.reserve(room_for(asking.closings)?)?;
    check_free(wired, stream)?;
    wired.ask(asking.moment, made.request, made.bytes);
    carriers.push_reserved(stream);
    wired.push(stream);
    Ok(())
}

/// Asks the next farewell on a connection, where one is left and may go out there.
fn ask_of<N: Net>(
    alloc: Global,
    wired: &mut WiredTrail<N>,
    asking: Asking<'_>,
    carrier: Carrier<'_>,
    carriers: &mut Vec<u64>,
) -> Result<(), Memory>
    requires ready { IsToAsk wired.old.trail asking.closings asking.moment asking.lists.now carriers.old.items }
    requires few { length carriers.old.items ≤ length asking.lists.now }
    requires at { IsToAskAt wired.old.trail.point.state carrier.server.now }
    requires free { (place : ℕ) × (slice_get carrier.server.now.pool.state.available place ≡ Some carrier.free) }
    ensures carries { Carries asking.entry.moment asking.entry.closings wired.old wired.new carriers.old.items carriers.new.items }
    ensures few { length carriers.new.items ≤ length asking.entry.lists.now }
    ensures asked { OnOk result ((stream : ℕ) → IsFreeOn carrier.entry.server.now carrier.entry.free wired.old.lines asking.entry.moment stream
        → IsAsked carriers.new.items asking.entry.lists.now stream) }
    ensures faults { N.faults wired.old.net ≤ N.faults wired.new.net }
{
    if carriers.len() == asking.lists.len() {
        return Ok(());
    }
    match free_stream(wired, carrier, asking.moment, carriers.as_slice()) {
        Some(stream) => ask_on(alloc, wired, asking, stream, carriers),
        None => Ok(()),
    }
}

/// Asks farewells on the connections of a server to which they may go.
fn ask_each<N: Net>(
    alloc: Global,
    wired: &mut WiredTrail<N>,
    asking: Asking<'_>,
    server: &Server,
    carriers: &mut Vec<u64>,
) -> Result<(), Memory>
    requires ready { IsToAsk wired.old.trail asking.closings asking.moment asking.lists.now carriers.old.items }
    requires few { length carriers.old.items ≤ length asking.lists.now }
    requires at { IsToAskAt wired.old.trail.point.state server.now }
    ensures carries { Carries asking.entry.moment asking.entry.closings wired.old wired.new carriers.old.items carriers.new.items }
    ensures few { length carriers.new.items ≤ length asking.entry.lists.now }
    ensures asked { OnOk result ((place stream : ℕ) (free : Connection) → slice_get server.now.pool.state.available place ≡ Some free
        → IsFreeOn server.now free wired.old.lines asking.entry.moment stream → IsAsked carriers.new.items asking.entry.lists.now stream) }
    ensures faults { N.faults wired.old.net ≤ N.faults wired.new.net }
{
    let available = server.available();
    let mut place: usize = 0;
    'asking: while place < available.len() {
        let carrier = Carrier {
            server,
            free: available[place],
        };
        ask_of(alloc, wired, asking, carrier, carriers)?;
        place += 1;
    }
    Ok(())
}

/// Asks farewells on the connections of a server, where they may go to it.
pub fn ask_at<N: Net>(
    alloc: Global,
    wired: &mut WiredTrail<N>,
    asking: Asking<'_>,
    server: &Server,
    carriers: &mut Vec<u64>,
) -> Result<(), Memory>
    requires ready { IsToAsk wired.old.trail asking.closings asking.moment asking.lists.now carriers.old.items }
    requires few { length carriers.old.items ≤ length asking.lists.now }
    requires hosts { AreReadable wired.old.trail.point.state.topology asking.hosts.now }
    requires there { (host : ℕ) × (slice_get wired.old.trail.point.state.servers host ≡ Some server.now) }
    ensures carries { Carries asking.entry.moment asking.entry.closings wired.old wired.new carriers.old.items carriers.new.items }
    ensures few { length carriers.new.items ≤ length asking.entry.lists.now }
    ensures asked { OnOk result ((place stream : ℕ) (free : Connection) → IsToAskAt wired.old.trail.point.state server.now
        → slice_get server.now.pool.state.available place ≡ Some free
        → IsFreeOn server.now free wired.old.lines asking.entry.moment stream → IsAsked carriers.new.items asking.entry.lists.now stream) }
    ensures faults { N.faults wired.old.net ≤ N.faults wired.new.net }
{
    if server.has_left() || !is_among(asking.hosts, server.host()) {
        return Ok(());
    }
    ask_each(alloc, wired, asking, server, carriers)
}
