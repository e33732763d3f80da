//! The operations of a file (CMAP, its tests: Operations).
use crate::options::micros_of;
use crate::player::Player;
use serde_json::Value;
use std::alloc::Global;
use suite_files::Fault;
use suite_files::members::{member, number, text, text_member};

/// Does an operation. Of one that a thread does the file's own thread waits for no more than that it was begun.
pub fn operate<'a>(
    alloc: Global,
    player: &mut Player<'a>,
    operation: &'a Value,
) -> Result<(), Fault> {
    match text_member(alloc, operation, "name")? {
        "start" => Ok(()),
        "checkOut" => check_out(alloc, player, operation),
        "checkIn" => player.check_in(alloc, text_member(alloc, operation, "connection")?),
        "clear" => player.clear(alloc),
        "close" => player.close(alloc),
        "wait" => player.pass(alloc, micros_of(alloc, member(alloc, operation, "ms")?)?),
        "waitForThread" => wait_for_thread(alloc, player, operation),
        "waitForEvent" => wait_for_event(alloc, player, operation),
        other => Err(Fault::told(alloc, format_args!("no call for {other}"))),
    }
}

fn check_out<'a>(
    alloc: Global,
    player: &mut Player<'a>,
    operation: &'a Value,
) -> Result<(), Fault> {
    let label = optional(alloc, operation, "label")?;
    let Some(thread) = optional(alloc, operation, "thread")? else {
        player.check_out(alloc, "", label)?;
        return until_served(alloc, player, "");
    };
    if player.waits(thread) {
        return Err(Fault::told(alloc, format_args!("{thread} waits already")));
    }
    player.check_out(alloc, thread, label)
}

/// The text of a member that may be absent.
fn optional<'a>(alloc: Global, operation: &'a Value, name: &str) -> Result<Option<&'a str>, Fault> {
    match operation.get(name) {
        Some(found) => Ok(Some(text(alloc, found)?)),
        None => Ok(None),
    }
}

fn wait_for_thread(alloc: Global, player: &mut Player<'_>, operation: &Value) -> Result<(), Fault> {
    until_served(alloc, player, text_member(alloc, operation, "target")?)
}

/// Time passes until the thread waits no more.
fn until_served(alloc: Global, player: &mut Player<'_>, thread: &str) -> Result<(), Fault> {
    for _ in 0..player.line() {
        if !player.waits(thread) || !player.pass_on(alloc)? {
            break;
        }
    }
    if player.waits(thread) {
        return Err(Fault::told(alloc, format_args!("`{thread}` waits without end")));
    }
    Ok(())
}

/// Time passes until there were so many events of that name.
fn wait_for_event(alloc: Global, player: &mut Player<'_>, operation: &Value) -> Result<(), Fault> {
    let kind = text_member(alloc, operation, "event")?;
    let count = number(alloc, member(alloc, operation, "count")?)?;
    for _ in 0..player.line() {
        if player.told(kind) >= count || !player.pass_on(alloc)? {
            break;
        }
    }
    if player.told(kind) < count {
        return Err(Fault::told(alloc, format_args!("no {count} {kind} come")));
    }
    Ok(())
}
