//! The command of one JSON value, by the table of a line's members.

ghost use Rattle.std.specs.Prelude.{◌≡◌, Ok, IfOk, IfErr};
ghost use Rattle.serde_json.specs.View.{members_view, view};
ghost use Rattle.script_text.specs.Commands.{Stops, act_in, command_from};
ghost use Rattle.script_text.specs.Members.{are_of, has_members_of, is_name_of};

use crate::ScriptKind;
use crate::acts::{delete_of, find_of, insert_of, modify_of, update_of};
use crate::head::{Head, head_at};
use crate::member::Member;
use crate::stop::LineStop;
use crate::values::op_at;
use cmd_build::{Command, Op};
use serde_json::{Map, Value};
use std::alloc::Global;

/// The command that a JSON value is, or its first fault.
#[tactic(auto, unfolding(crate::specs::Commands::command_from))]
pub fn command_of(alloc: Global, value: &Value) -> Result<Command, LineStop>
    ensures ok { IfOk result (λ c. command_from (view value.now) ≡ Ok c) }
    ensures stop { IfErr result (λ s. Stops s (command_from (view value.now))) }
{
    let Some(op) = op_at(value) else {
        return Err(LineStop::Fault(ScriptKind::Shape));
    };
    if !knows_members(op, value) {
        return Err(LineStop::Fault(ScriptKind::Shape));
    }
    let head = match head_at(alloc, value) {
        Ok(Some(head)) => head,
        Ok(None) => return Err(LineStop::Fault(ScriptKind::Shape)),
        Err(_) => return Err(LineStop::Memory),
    };
    act_of(alloc, op, head, value)
}

/// The command of that head, by what it does.
fn act_of(alloc: Global, op: Op, head: Head, value: &Value) -> Result<Command, LineStop>
    ensures ok { IfOk result (λ c. act_in op head (view value.now) ≡ Ok c) }
    ensures stop { IfErr result (λ s. Stops s (act_in op head (view value.now))) }
{
    match op {
        Op::Insert => insert_of(alloc, head, value),
        Op::Update => update_of(alloc, head, value),
        Op::Delete => delete_of(alloc, head, value),
        Op::FindAndModify => modify_of(alloc, head, value),
        Op::Find => find_of(alloc, head, value),
    }
}

/// Whether the value is an object whose members are all for that command.
fn knows_members(op: Op, value: &Value) -> bool
    ensures { result ≡ has_members_of op (view value.now) }
{
    match value {
        Value::Object(members) => are_all_known(op, members),
        _ => false,
    }
}

/// Whether each member is for that command.
fn are_all_known(op: Op, members: &Map<String, Value>) -> bool
    ensures { result ≡ are_of op (members_view members.now.entries) }
{
    for (key, _) in members.iter() {
        if !is_known(op, key.as_str()) {
            return false;
        }
    }
    true
}

/// Whether the line of such a command may have a member of that name.
fn is_known(op: Op, name: &str) -> bool
    ensures { result ≡ is_name_of op name.now }
{
    match Member::from_name(name) {
        Some(member) => member.is_of(op),
        None => false,
    }
}
