ghost use Rattle.std.specs.Prelude.{◌≡◌, IfOk};
ghost use Rattle.script_text.specs.Commands.{command_of, head_in};
ghost use Rattle.serde_json.specs.View.{view};

use crate::Memory;
use crate::member::Member;
use crate::values::{db_at, lane_at, name_at};
use bson_doc::Name;
use cmd_build::{Act, Command};
use serde_json::Value;
use std::alloc::Global;

/// What the line of every command says.
#[derive(Drop)]
pub(crate) struct Head {
    /// The lane, none where its number is not from 1 to 64.
    pub lane: Option<u32>,
    /// The collection.
    pub coll: Name,
    /// The collection's database, none where it is the client's own.
    pub db: Option<Name>,
}

/// What the line of every command says, none where it does not say that.
pub(crate) fn head_at(alloc: Global, value: &Value) -> Result<Option<Head>, Memory>
    ensures { IfOk result (λ h. h ≡ head_in (view value.now)) }
{
    let Some(lane) = lane_at(value) else {
        return Ok(None);
    };
    let Some(coll) = name_at(alloc, value, Member::Coll)? else {
        return Ok(None);
    };
    let Some(db) = db_at(alloc, value)? else {
        return Ok(None);
    };
    Ok(Some(Head { lane, coll, db }))
}

impl Head {
    /// The command of this head in a lane, that does this.
    pub(crate) fn command(self, lane: u32, act: Act) -> Command
        ensures { result ≡ command_of self lane act }
    {
        let Head { lane: _, coll, db } = self;
        Command {
            lane,
            db,
            coll,
            act,
        }
    }
}
