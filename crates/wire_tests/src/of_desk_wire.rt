//! Messages in pieces, over a net that follows a script and one that cuts where it is told. Expected messages and places
//! are worked out by hand from the format.

mod promising;
mod pulling;
mod pushing;
mod trading;

use bson_doc::{Bytes, Rows};
use net_link::{Net, ScriptNet, StreamPlan};
use std::alloc::Global;
use std::test::Fail;

/// `{n: 1, ok: 1.0}` with the id 7, in answer to the id 1.
pub const REPLY: &[u8] =
    b"\x2d\0\0\0\x07\0\0\0\x01\0\0\0\xdd\x07\0\0\0\0\0\0\0\x18\0\0\0\x10n\0\x01\0\0\0\x01ok\0\0\0\0\0\0\0\xf0\x3f\0";

/// Messages of 45, 26 and 38 bytes with the ids 7, 8 and 9, one after another.
pub const THREE: &[u8] =
    b"\x2d\0\0\0\x07\0\0\0\x01\0\0\0\xdd\x07\0\0\0\0\0\0\0\x18\0\0\0\x10n\0\x01\0\0\0\x01ok\0\0\0\0\0\0\0\xf0\x3f\0\x1a\0\0\0\x08\0\0\0\x01\0\0\0\xdd\x07\0\0\0\0\0\0\0\x05\0\0\0\0\x26\0\0\0\x09\0\0\0\x01\0\0\0\xdd\x07\0\0\0\0\0\0\0\x11\0\0\0\x01ok\0\0\0\0\0\0\0\xf0\x3f\0";

/// A net with one scripted stream, whose reads give at most so many bytes, and that fails at the call of that number.
pub fn script(
    alloc: Global,
    bytes: &[u8],
    most: u32,
    ends: bool,
    fails: u64,
) -> Result<ScriptNet, Fail> {
    let mut plans = Rows::new(alloc);
    plans.push(StreamPlan {
        bytes: Bytes::take(alloc, bytes)?,
        most,
        ends,
    })?;
    let mut failing = Rows::new(alloc);
    failing.push(fails)?;
    Ok(ScriptNet::new(alloc, plans, failing))
}
