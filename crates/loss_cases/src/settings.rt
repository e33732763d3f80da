//! What runs are made of.
ghost use Rattle.std.specs.Prelude.{◌≡◌, [], IfOk};

use crate::members::hall;
use bson_doc::{Bytes, Memory, Rows, Text};
use member_hall::{Hall, Planned};
use net_link::{SliceSource, VecSink};
use std::alloc::Global;

/// The members, their set, and how long an answer is waited for.
const URI: &str = "mongodb://a,b,c/?replicaSet=rs0&socketTimeoutMS=100";

/// How many bytes a report has at most.
const ROOM: usize = 4_096;

/// What is run, and over which members.
#[derive(Drop)]
pub struct Setting {
    /// The words of the command line.
    pub words: Rows<Text>,
    /// The script.
    pub script: SliceSource,
    /// Where the report goes.
    pub out: VecSink,
    /// The members.
    pub hall: Hall,
}

/// A run of a script, over members to which that is to happen.
pub fn setting_of(alloc: Global, script: &str, acts: Rows<Planned>) -> Result<Setting, Memory>
    ensures fresh { IfOk result (λ setting. setting.hall.events ≡ []) }
{
    Ok(Setting {
        words: words(alloc)?,
        script: source(alloc, script)?,
        out: VecSink::new(alloc, ROOM, Rows::new(alloc))?,
        hall: hall(alloc, acts)?,
    })
}

/// The words of the command line.
fn words(alloc: Global) -> Result<Rows<Text>, Memory> {
    let mut words = Rows::new(alloc);
    words.push(Text::take(alloc, "run")?)?;
    words.push(Text::take(alloc, URI)?)?;
    Ok(words)
}

/// A source of the script.
fn source(alloc: Global, script: &str) -> Result<SliceSource, Memory> {
    let bytes = Bytes::take(alloc, script.as_bytes())?;
    Ok(SliceSource::new(bytes, Rows::new(alloc)))
}
