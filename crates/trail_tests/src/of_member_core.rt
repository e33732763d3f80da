//! Each public call on its happy path.
use bson_doc::{Document, Rows, Text, Value};
use host_name::Host;
use member_core::{Member, Memory, is_within};
use msg_wire::Message;
use net_link::Effect;
use std::alloc::Global;
use std::test::Fail;

/// The one member of a set of that name.
fn member(alloc: Global, set: &str) -> Result<Member, Fail> {
    let hosts = [Host::parse(alloc, "member-0.example")?];
    if !is_within(alloc, set, &hosts)? {
        return Err(Fail::new("the set is over its bound"));
    }
    Ok(Member::new(alloc, set, &hosts, 0)?)
}

/// An insert without a session.
fn insert(alloc: Global) -> Result<Message, Memory> {
    let mut body = Document::new(alloc);
    body.put(alloc, "insert", Value::Str(Text::take(alloc, "people")?))?;
    Ok(message(alloc, body))
}

fn hello(alloc: Global) -> Result<Message, Memory> {
    let mut body = Document::new(alloc);
    body.put(alloc, "hello", Value::Int32(1))?;
    Ok(message(alloc, body))
}

fn message(alloc: Global, body: Document) -> Message {
    Message {
        id: 7,
        to: 0,
        flags: 0,
        body,
        sequences: Rows::new(alloc),
        length: 42,
    }
}

/// What an answer says: its effect, how many writes are kept, and how many bytes it has.
fn answer(
    alloc: Global,
    member: &mut Member,
    request: &Message,
    nth: u64,
    acknowledged: bool,
) -> Result<(Effect, usize, usize), Memory> {
    let answered = member.answer(alloc, request, 2, 0, nth, acknowledged)?;
    Ok((answered.effect, answered.kept, answered.bytes.len()))
}

/// Three inserts are answered.
fn insert_thrice(
    alloc: Global,
    member: &mut Member,
    request: &Message,
    acknowledged: bool,
) -> Result<(), Memory> {
    for nth in 0..3 {
        answer(alloc, member, request, nth, acknowledged)?;
    }
    Ok(())
}

#[test]
fn a_write_is_added(rt: HostRuntime) -> Result<(), Fail> {
    let request = insert(rt.alloc())?;
    let mut primary = member(rt.alloc(), "rs")?;
    let (effect, kept, _) = answer(rt.alloc(), &mut primary, &request, 0, true)?;
    let logged = primary.log().len();
    assert!(rt; (effect, kept, logged) == (Effect::Added, 0, 1));
    Ok(())
}

/// How many writes two logs share behind three writes, a copy of them, another write of the first member and an election of the
/// second, and how long the second one's log is.
fn share(
    alloc: Global,
    primary: &mut Member,
    other: &mut Member,
    request: &Message,
) -> Result<[usize; 2], Fail> {
    insert_thrice(alloc, primary, request, true)?;
    if other.shared_with(primary, 0) != 0 {
        return Err(Fail::new("a log that is empty shares a write"));
    }
    other.follow(alloc, primary, 0)?;
    if other.shared_with(primary, 0) != 3 {
        return Err(Fail::new("a log that was copied shares other than three writes"));
    }
    let again = primary.answer(alloc, request, 2, 0, 3, true)?;
    if again.kept != 3 {
        return Err(Fail::new("another write keeps other than three"));
    }
    other.elect(alloc, Some(primary), 2, 3)?;
    Ok([other.shared_with(primary, 3), other.log().len()])
}

#[test]
fn logs_share_what_was_copied(rt: HostRuntime) -> Result<(), Fail> {
    let request = insert(rt.alloc())?;
    let mut primary = member(rt.alloc(), "rs")?;
    let mut other = member(rt.alloc(), "rs")?;
    let shared = share(rt.alloc(), &mut primary, &mut other, &request)?;
    assert!(rt; shared == [4, 4]);
    Ok(())
}

#[test]
fn a_write_without_acknowledgement_is_marked_later(rt: HostRuntime) -> Result<(), Fail> {
    let request = insert(rt.alloc())?;
    let mut primary = member(rt.alloc(), "rs")?;
    let marked = mark(rt.alloc(), &mut primary, &request)?;
    assert!(rt; marked == (Effect::Known, 1, 3));
    Ok(())
}

/// Three inserts without acknowledgement, and the same one twice with it: what the first of these comes to and how many writes
/// are kept then, and how many behind the second.
fn mark(
    alloc: Global,
    primary: &mut Member,
    request: &Message,
) -> Result<(Effect, usize, usize), Memory> {
    insert_thrice(alloc, primary, request, false)?;
    let (effect, marked, _) = answer(alloc, primary, request, 1, true)?;
    let (_, kept, _) = answer(alloc, primary, request, 1, true)?;
    Ok((effect, marked, kept))
}

#[test]
fn roles_change(rt: HostRuntime) -> Result<(), Fail> {
    let mut a = member(rt.alloc(), "rs")?;
    let mut b = member(rt.alloc(), "rs")?;
    let roles = change_roles(rt.alloc(), &mut a, &mut b)?;
    assert!(rt; roles == (false, true));
    assert_eq!(rt; b.place(), 0);
    Ok(())
}

/// The first member follows the second, which is elected: whether each takes writes.
fn change_roles(alloc: Global, a: &mut Member, b: &mut Member) -> Result<(bool, bool), Memory> {
    a.follow(alloc, b, 0)?;
    let first = a.takes_writes();
    b.elect(alloc, Some(a), 2, 0)?;
    Ok((first, b.takes_writes()))
}

/// Fifty letters.
const LETTERS: &str = "aaaaaaaaaabbbbbbbbbbccccccccccddddddddddeeeeeeeeee";

/// The set's name has 14,999,850 bytes, the host and its port 22, and 128 more are counted.
#[test]
fn a_set_at_its_bound_answers_hello(rt: HostRuntime) -> Result<(), Fail> {
    let set = LETTERS.repeat(rt.alloc(), 299_997)?;
    let mut member = member(rt.alloc(), set.as_str())?;
    let request = hello(rt.alloc())?;
    let (_, _, length) = answer(rt.alloc(), &mut member, &request, 0, true)?;
    assert_eq!(rt; length, 15_000_290);
    Ok(())
}

#[test]
fn a_set_over_its_bound(rt: HostRuntime) -> Result<(), Fail> {
    let mut set = LETTERS.repeat(rt.alloc(), 299_997)?;
    set.push('a')?;
    let hosts = [Host::parse(rt.alloc(), "member-0.example")?];
    let within = is_within(rt.alloc(), set.as_str(), &hosts)?;
    assert!(rt; !within);
    Ok(())
}
