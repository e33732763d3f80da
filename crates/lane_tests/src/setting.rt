//! What the runs of the tests are made of.
ghost use Rattle.std.specs.Prelude.{◌≡◌, [], IfOk};

use bson_doc::{Bytes, Memory, Rows, Text};
use host_name::Host;
use member_core::is_within;
use member_hall::{Hall, Planned};
use net_link::{SliceSource, VecSink};
use std::alloc::{AllocError, Global};

/// The name of the set, and its hosts. The first is elected when a run begins.
const SET: &str = "rs0";

const HOSTS: [&str; 3] = ["a:1", "b:2", "c:3"];

/// How many bytes a report has at most.
const ROOM: usize = 8_192;

/// What is run, and over which members.
#[derive(Drop)]
pub struct Setting {
    /// The words of the command line.
    pub words: Rows<Text>,
    /// The script.
    pub script: SliceSource,
    /// Where the report goes.
    pub out: VecSink,
    /// The members.
    pub hall: Hall,
}

/// A run of a script, with options of the connection string, over three members to which that is to happen.
pub fn setting_of(
    alloc: Global,
    script: &str,
    options: &str,
    plan: &[Planned],
) -> Result<Setting, Memory>
    ensures fresh { IfOk result (λ setting. setting.hall.events ≡ []) }
{
    Ok(Setting {
        words: words(alloc, options)?,
        script: SliceSource::new(Bytes::take(alloc, script.as_bytes())?, Rows::new(alloc)),
        out: VecSink::new(alloc, ROOM, Rows::new(alloc))?,
        hall: hall(alloc, plan)?,
    })
}

/// The words of the command line.
fn words(alloc: Global, options: &str) -> Result<Rows<Text>, Memory> {
    let uri = format!(in alloc; "mongodb://a:1,b:2,c:3/?replicaSet={SET}{options}")?;
    let mut words = Rows::new(alloc);
    for word in ["run", uri.as_str()] {
        words.push(Text::take(alloc, word)?)?;
    }
    Ok(words)
}

/// Three members to which nothing happened yet.
pub fn hall(alloc: Global, plan: &[Planned]) -> Result<Hall, Memory>
    ensures fresh { IfOk result (λ hall. hall.events ≡ []) }
{
    let hosts = hosts(alloc)?;
    if !is_within(alloc, SET, hosts.as_slice())? {
        return Err(AllocError);
    }
    match Hall::new(alloc, SET, hosts.as_slice(), Rows::take(alloc, plan)?) {
        Ok(hall) => Ok(hall),
        Err(_) => Err(AllocError),
    }
}

/// Their hosts.
fn hosts(alloc: Global) -> Result<Rows<Host>, Memory> {
    let mut hosts = Rows::new(alloc);
    for name in HOSTS {
        hosts.push(host(alloc, name)?)?;
    }
    Ok(hosts)
}

/// The host of that name.
fn host(alloc: Global, name: &str) -> Result<Host, Memory> {
    match Host::parse(alloc, name) {
        Ok(host) => Ok(host),
        Err(_) => Err(AllocError),
    }
}
