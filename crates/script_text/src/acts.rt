//! What each command's line asks for: first the shape of its members, then the lane, then its documents.
ghost use Rattle.std.specs.Prelude.{◌≡◌, Ok, IfOk, IfErr, option_map};
ghost use Rattle.serde_json.specs.View.{view};
ghost use Rattle.bson_text.specs.Reading.{reading};
ghost use Rattle.script_text.specs.Commands.{Stops, StopsText, delete_in, find_in, insert_in, modify_in, update_in, reading_if};

use crate::ScriptKind;
use crate::head::Head;
use crate::member::Member;
use crate::reads::read_at;
use crate::stop::LineStop;
use crate::values::{all_at, change_at, flag_at, object_at};
use bson_doc::Document;
use bson_text::{TextFault, from_json};
use cmd_build::{Act, Command};
use serde_json::Value;
use std::alloc::Global;

/// The insert of a line.
pub(crate) fn insert_of(alloc: Global, head: Head, value: &Value) -> Result<Command, LineStop>
    ensures ok { IfOk result (λ c. insert_in head (view value.now) ≡ Ok c) }
    ensures stop { IfErr result (λ s. Stops s (insert_in head (view value.now))) }
{
    let Some(doc) = object_at(value, Member::Doc) else {
        return Err(LineStop::Fault(ScriptKind::Shape));
    };
    let Some(lane) = head.lane else {
        return Err(LineStop::Fault(ScriptKind::Lane));
    };
    match document_of(alloc, doc) {
        Ok(doc) => Ok(head.command(lane, Act::Insert { doc })),
        Err(stop) => Err(stop),
    }
}

/// The update of a line.
pub(crate) fn update_of(alloc: Global, head: Head, value: &Value) -> Result<Command, LineStop>
    ensures ok { IfOk result (λ c. update_in head (view value.now) ≡ Ok c) }
    ensures stop { IfErr result (λ s. Stops s (update_in head (view value.now))) }
{
    let Some(filter) = object_at(value, Member::Filter) else {
        return Err(LineStop::Fault(ScriptKind::Shape));
    };
    let Some(change) = object_at(value, Member::Change) else {
        return Err(LineStop::Fault(ScriptKind::Shape));
    };
    let Some(multi) = flag_at(value, Member::Multi) else {
        return Err(LineStop::Fault(ScriptKind::Shape));
    };
    let Some(upsert) = flag_at(value, Member::Upsert) else {
        return Err(LineStop::Fault(ScriptKind::Shape));
    };
    let Some(lane) = head.lane else {
        return Err(LineStop::Fault(ScriptKind::Lane));
    };
    let filter = match document_of(alloc, filter) {
        Ok(filter) => filter,
        Err(stop) => return Err(stop),
    };
    let change = match document_of(alloc, change) {
        Ok(change) => change,
        Err(stop) => return Err(stop),
    };
    let act = Act::Update {
        filter,
        change,
        multi,
        upsert,
    };
    Ok(head.command(lane, act))
}

/// The delete of a line.
pub(crate) fn delete_of(alloc: Global, head: Head, value: &Value) -> Result<Command, LineStop>
    ensures ok { IfOk result (λ c. delete_in head (view value.now) ≡ Ok c) }
    ensures stop { IfErr result (λ s. Stops s (delete_in head (view value.now))) }
{
    let Some(filter) = object_at(value, Member::Filter) else {
        return Err(LineStop::Fault(ScriptKind::Shape));
    };
    let Some(all) = all_at(value) else {
        return Err(LineStop::Fault(ScriptKind::Shape));
    };
    let Some(lane) = head.lane else {
        return Err(LineStop::Fault(ScriptKind::Lane));
    };
    match document_of(alloc, filter) {
        Ok(filter) => Ok(head.command(lane, Act::Delete { filter, all })),
        Err(stop) => Err(stop),
    }
}

/// The findAndModify of a line.
pub(crate) fn modify_of(alloc: Global, head: Head, value: &Value) -> Result<Command, LineStop>
    ensures ok { IfOk result (λ c. modify_in head (view value.now) ≡ Ok c) }
    ensures stop { IfErr result (λ s. Stops s (modify_in head (view value.now))) }
{
    let Some(filter) = object_at(value, Member::Filter) else {
        return Err(LineStop::Fault(ScriptKind::Shape));
    };
    let Some(change) = change_at(value) else {
        return Err(LineStop::Fault(ScriptKind::Shape));
    };
    let Some(lane) = head.lane else {
        return Err(LineStop::Fault(ScriptKind::Lane));
    };
    let filter = match document_of(alloc, filter) {
        Ok(filter) => filter,
        Err(stop) => return Err(stop),
    };
    let change = match document_if(alloc, change) {
        Ok(change) => change,
        Err(stop) => return Err(stop),
    };
    Ok(head.command(lane, Act::FindAndModify { filter, change }))
}

/// The find of a line.
pub(crate) fn find_of(alloc: Global, head: Head, value: &Value) -> Result<Command, LineStop>
    ensures ok { IfOk result (λ c. find_in head (view value.now) ≡ Ok c) }
    ensures stop { IfErr result (λ s. Stops s (find_in head (view value.now))) }
{
    let Some(filter) = object_at(value, Member::Filter) else {
        return Err(LineStop::Fault(ScriptKind::Shape));
    };
    let read = match read_at(alloc, value) {
        Ok(Some(read)) => read,
        Ok(None) => return Err(LineStop::Fault(ScriptKind::Shape)),
        Err(_) => return Err(LineStop::Memory),
    };
    let Some(lane) = head.lane else {
        return Err(LineStop::Fault(ScriptKind::Lane));
    };
    match document_of(alloc, filter) {
        Ok(filter) => Ok(head.command(lane, Act::Find { filter, read })),
        Err(stop) => Err(stop),
    }
}

/// The document of an object.
fn document_of(alloc: Global, value: &Value) -> Result<Document, LineStop>
    ensures ok { IfOk result (λ d. reading (view value.now) ≡ Ok d) }
    ensures stop { IfErr result (λ s. StopsText s (reading (view value.now))) }
{
    match from_json(alloc, value) {
        Ok(document) => Ok(document),
        Err(TextFault::Memory) => Err(LineStop::Memory),
        Err(fault) => Err(LineStop::Fault(ScriptKind::Text(fault))),
    }
}

/// The document of an object that may be absent.
fn document_if(alloc: Global, value: Option<&Value>) -> Result<Option<Document>, LineStop>
    ensures ok { IfOk result (λ d. reading_if (option_map (λ v. view v.now) value.entry) ≡ Ok d) }
    ensures stop { IfErr result (λ s. StopsText s (reading_if (option_map (λ v. view v.now) value.entry))) }
{
    let Some(value) = value else {
        return Ok(None);
    };
    match document_of(alloc, value) {
        Ok(document) => Ok(Some(document)),
        Err(stop) => Err(stop),
    }
}
