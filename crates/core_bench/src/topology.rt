//! How long `topo_rules` takes to take an event in, and `hello_reply` to describe a reply.
//!
//! `topology NAMES WHAT HOSTS ROUNDS` does a thing ROUNDS times, and prints the nanoseconds that one of these took in the
//! quickest of five batches, and the hosts. NAMES is `plain`, or `equal`: names that the toolchain's hasher, whose seed is fixed,
//! gives one hash. WHAT is `primary`, the reply of a primary that lists all hosts, or `broken`, a connection that broke, each of
//! the first host of a topology of that many hosts, of which each other one answered before as a secondary that lists all; or it
//! is `described`, a hello reply of the first host that lists all, which is read.

ghost use Rattle.std.specs.Prelude.{◌≢◌, ◌≤◌, IfSome};

use crate::fields::put_text;
use crate::replica_set::{MOST_HOSTS, member, opened, take_in};
use crate::timing::quickest;
use crate::trouble::Trouble;
use crate::words::{number, rounds};
use bson_doc::{Document, Rows, Text, Value};
use hello_reply::{ServerKind, describe};
use host_name::Host;
use std::alloc::Global;
use std::env::Args;
use topo_rules::{TopoEvent, Topology};

/// Names of hosts are multiples of this number, so that they do not come in their order.
const STRIDE: u32 = 7_919;

/// What names of one hash begin with: 24 bytes behind which the toolchain's hasher multiplies by zero, so that the eight
/// bytes that follow do not count.
const EQUAL_FRONT: &str = "rf0n6q737zepu7t9cb64x1s0";

/// The least number of eight digits.
const EIGHT_DIGITS: u32 = 10_000_000;

/// What is measured.
#[derive(Clone, Copy, Drop)]
struct Asked {
    /// The names have one hash.
    equal: bool,
    /// What is done.
    what: Work,
    /// How many hosts.
    count: u32,
    /// How often the event is taken in.
    rounds: u32,
}

/// What is done again and again.
#[derive(Clone, Copy, PartialEq, Eq, Drop)]
enum Work {
    /// A primary's reply is taken in.
    Primary,
    /// A broken connection is taken in.
    Broken,
    /// A reply is described.
    Described,
}

/// Measures what the words ask for.
pub fn measure(rt: &HostRuntime, words: &mut Args) -> Result<(), Trouble> {
    let asked = parsed(words).ok_or(Trouble::Words)?;
    let hosts = hosts(rt.alloc(), asked).ok_or(Trouble::Answer)?;
    if asked.what == Work::Described {
        return describing(rt, asked, hosts.as_slice());
    }
    taking_in(rt, asked, hosts.as_slice())
}

/// How long an event takes to be taken in.
fn taking_in(rt: &HostRuntime, asked: Asked, hosts: &[Host]) -> Result<(), Trouble>
    requires { asked.rounds ≢ 0 }
{
    let mut topology = opened(rt.alloc(), hosts).ok_or(Trouble::Answer)?;
    take_members_in(rt.alloc(), &mut topology, hosts).ok_or(Trouble::Answer)?;
    let best = time_event(rt, asked, &mut topology, hosts)?;
    let _ = println!(rt; "apply {best} {}", asked.count);
    Ok(())
}

/// How long the event that is asked for takes to be taken in.
fn time_event(
    rt: &HostRuntime,
    asked: Asked,
    topology: &mut Topology,
    hosts: &[Host],
) -> Result<u64, Trouble>
    requires { asked.rounds ≢ 0 }
{
    let event = event(rt.alloc(), asked, hosts).ok_or(Trouble::Answer)?;
    quickest(rt, asked.rounds, |_| take_in(rt.alloc(), topology, &event))
}

/// How long a reply takes to be described.
fn describing(rt: &HostRuntime, asked: Asked, hosts: &[Host]) -> Result<(), Trouble>
    requires { asked.rounds ≢ 0 }
{
    let reply = reply_document(rt.alloc(), hosts).ok_or(Trouble::Answer)?;
    let first = hosts.first().ok_or(Trouble::Words)?;
    let best = quickest(
        rt,
        asked.rounds,
        |_| describe_once(rt.alloc(), &reply, first),
    )?;
    let _ = println!(rt; "describe {best} {}", asked.count);
    Ok(())
}

/// What the words ask for: 1 to 1,000 hosts, and at least one round.
fn parsed(words: &mut Args) -> Option<Asked>
    ensures rounds { IfSome result (λ m. m.rounds ≢ 0) }
    ensures hosts { IfSome result (λ m. m.count ≤ 1000) }
{
    let equal = chosen(words.next()?.as_str(), "plain", "equal")?;
    let what = work_named(words.next()?.as_str())?;
    let count = number(words, 1, MOST_HOSTS)?;
    let rounds = rounds(words)?;
    Some(Asked {
        equal,
        what,
        count,
        rounds,
    })
}

/// Whether the word is the second of the two; none where it is neither.
fn chosen(word: &str, first: &str, second: &str) -> Option<bool> {
    if word == first {
        return Some(false);
    }
    (word == second).then_some(true)
}

/// What the word asks for.
fn work_named(word: &str) -> Option<Work> {
    match word {
        "primary" => Some(Work::Primary),
        "broken" => Some(Work::Broken),
        "described" => Some(Work::Described),
        _ => None,
    }
}

/// So many different hosts.
fn hosts(alloc: Global, asked: Asked) -> Option<Rows<Host>>
    requires { asked.count ≤ 1000 }
{
    let mut hosts = Rows::new(alloc);
    push_hosts(alloc, &mut hosts, asked)?;
    Some(hosts)
}

/// Appends so many different hosts.
fn push_hosts(alloc: Global, hosts: &mut Rows<Host>, asked: Asked) -> Option<()>
    requires { asked.count ≤ 1000 }
{
    for place in 0..asked.count {
        let host = host_of(alloc, asked.equal, place * STRIDE)?;
        hosts.push(host).ok()?;
    }
    Some(())
}

/// The host of that number, by a name of one hash with the others or by a plain one.
fn host_of(alloc: Global, equal: bool, number: u32) -> Option<Host>
    requires { number ≤ 10000000 }
{
    let text = if equal {
        format!(in alloc; "{EQUAL_FRONT}{}", EIGHT_DIGITS + number)
    } else {
        format!(in alloc; "h{number}.example")
    };
    let text = text.ok()?;
    Host::parse(alloc, text.as_str()).ok()
}

/// The event of the first host.
fn event(alloc: Global, asked: Asked, hosts: &[Host]) -> Option<TopoEvent> {
    let first = hosts.first()?;
    if asked.what == Work::Broken {
        let host = first.copy(alloc).ok()?;
        return Some(TopoEvent::Broken {
            host,
            generation: Some(0),
        });
    }
    reply(alloc, first, ServerKind::Primary, hosts)
}

/// The hello reply of a primary that lists all.
fn reply_document(alloc: Global, hosts: &[Host]) -> Option<Document> {
    let mut reply = Document::new(alloc);
    put_fields(alloc, &mut reply, hosts)?;
    Some(reply)
}

/// Puts the fields of such a reply.
fn put_fields(alloc: Global, reply: &mut Document, hosts: &[Host]) -> Option<()> {
    reply.put(alloc, "ok", Value::Int32(1)).ok()?;
    put_text(alloc, reply, "setName", "rs")?;
    reply
        .put(alloc, "isWritablePrimary", Value::Bool(true))
        .ok()?;
    let mut listed = Rows::new(alloc);
    push_names(alloc, &mut listed, hosts)?;
    reply.put(alloc, "hosts", Value::Array(listed)).ok()
}

/// Appends the names of the hosts.
fn push_names(alloc: Global, listed: &mut Rows<Value>, hosts: &[Host]) -> Option<()> {
    for host in hosts {
        listed.push(Value::Str(name_of(alloc, host)?)).ok()?;
    }
    Some(())
}

/// The name of a host.
fn name_of(alloc: Global, host: &Host) -> Option<Text> {
    let text = host.text(alloc).ok()?;
    Text::take(alloc, text.as_str()).ok()
}

/// The reply of a host as a member of this kind that lists all.
fn reply(alloc: Global, host: &Host, kind: ServerKind, hosts: &[Host]) -> Option<TopoEvent> {
    Some(TopoEvent::Reply {
        description: member(alloc, host, kind, hosts)?,
        sample: 1_000,
    })
}

/// Takes in the replies of all hosts but the first, as secondaries that list all.
fn take_members_in(alloc: Global, topology: &mut Topology, hosts: &[Host]) -> Option<()> {
    for host in hosts.iter().skip(1) {
        let event = reply(alloc, host, ServerKind::Secondary, hosts)?;
        take_in(alloc, topology, &event)?;
    }
    Some(())
}

/// Describes the reply; None where it was not described.
fn describe_once(alloc: Global, reply: &Document, host: &Host) -> Option<()> {
    let _ = describe(alloc, reply, host).ok()?;
    Some(())
}
