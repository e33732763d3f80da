//! What an act asks for: the fields that stand first in its command, as they are written.
ghost use Rattle.std.specs.Prelude.{◌≡◌, ◌≤◌, ◌+◌, true, [], ◌∷◌, drop, length, IfErr, IfOk, OnOk, codes};
ghost use Rattle.bson_doc.specs.Names.{HasNoZero};
ghost use Rattle.bson_doc.specs.declared.value.Value.{Doc};
ghost use Rattle.bson_wire.specs.Spelled.{document, string};
ghost use Rattle.bson_wire.specs.Writes.{Writes};
ghost use Rattle.bson_wire.specs.Written.{Stops};
ghost use Rattle.cmd_build.specs.Batches.{BeginsBatch, EndsBatch, Stopped, find_fields};
ghost use Rattle.cmd_build.specs.Commands.{act_fields, delete_statement, modification, update_statement};

use crate::command::Act;
use bson_doc::Document;
use bson_wire::{ElementWriter, EncodeFault};

/// An act's own fields.
pub(crate) fn put_act(writer: &mut ElementWriter, coll: &str, act: &Act) -> Result<(), EncodeFault>
    ensures writes { OnOk result (Writes writer.old writer.new (act_fields coll.now act.now)) }
    ensures stops { IfErr result (Stopped (act_fields coll.now act.now)) }
{
    match act {
        Act::Insert { doc } => {
            let list = begin_batch(writer, "insert", coll, "documents")?;
            writer.document("0", doc)?;
            end_batch(writer, list)
        }
        Act::Update {
            filter,
            change,
            multi,
            upsert,
        } => {
            let list = begin_batch(writer, "update", coll, "updates")?;
            put_update(writer, filter, change, *multi, *upsert)?;
            end_batch(writer, list)
        }
        Act::Delete { filter, all } => {
            let list = begin_batch(writer, "delete", coll, "deletes")?;
            put_delete(writer, filter, *all)?;
            end_batch(writer, list)
        }
        Act::FindAndModify { filter, change } => {
            writer.text("findAndModify", coll)?;
            writer.document("query", filter)?;
            put_modification(writer, change)
        }
        Act::Find { filter, read: _ } => put_find(writer, coll, filter),
    }
}

/// Begins a write command with one statement, or one document: the statement is written next, and then its end. The place of the list's
/// total.
fn begin_batch(
    writer: &mut ElementWriter,
    name: &str,
    coll: &str,
    list: &str,
) -> Result<usize, EncodeFault>
    requires name { HasNoZero name.now }
    requires list { HasNoZero list.now }
    ensures begins { IfOk result (BeginsBatch name.now coll.now list.now writer.old writer.new) }
    ensures long { IfErr result (Stops (length (string coll.now))) }
{
    writer.text(name, coll)?;
    writer.begin_array(list)
}

/// Ends the list of a write command whose total stands at that place.
fn end_batch(writer: &mut ElementWriter, list: usize) -> Result<(), EncodeFault>
    requires begun { list + 4 ≤ length writer.old }
    ensures ends { OnOk result (EndsBatch list writer.old writer.new) }
    ensures long { IfErr result (Stops (length (document (drop (list + 4) writer.old)))) }
{
    writer.end(list)?;
    writer.truth("ordered", true)
}

/// One update statement.
fn put_update(
    writer: &mut ElementWriter,
    filter: &Document,
    change: &Document,
    multi: bool,
    upsert: bool,
) -> Result<(), EncodeFault>
    ensures writes { OnOk result (Writes writer.old writer.new ((codes "0", Doc (update_statement filter.now change.now multi upsert)) ∷ [])) }
    ensures stops { IfErr result (Stopped ((codes "0", Doc (update_statement filter.now change.now multi upsert)) ∷ [])) }
{
    let statement = writer.begin_document("0")?;
    writer.document("q", filter)?;
    writer.document("u", change)?;
    writer.truth("multi", multi)?;
    writer.truth("upsert", upsert)?;
    writer.end(statement)
}

/// One delete statement.
fn put_delete(writer: &mut ElementWriter, filter: &Document, all: bool) -> Result<(), EncodeFault>
    ensures writes { OnOk result (Writes writer.old writer.new ((codes "0", Doc (delete_statement filter.now all)) ∷ [])) }
    ensures stops { IfErr result (Stopped ((codes "0", Doc (delete_statement filter.now all)) ∷ [])) }
{
    let limit = if all { 0 } else { 1 };
    let statement = writer.begin_document("0")?;
    writer.document("q", filter)?;
    writer.int32("limit", limit)?;
    writer.end(statement)
}

/// What a findAndModify does with the document.
fn put_modification(
    writer: &mut ElementWriter,
    change: &Option<Document>,
) -> Result<(), EncodeFault>
    ensures writes { OnOk result (Writes writer.old writer.new (modification change.now ∷ [])) }
    ensures stops { IfErr result (Stopped (modification change.now ∷ [])) }
{
    match change {
        Some(change) => writer.document("update", change),
        None => writer.truth("remove", true),
    }
}

/// The fields of a find of one document.
fn put_find(writer: &mut ElementWriter, coll: &str, filter: &Document) -> Result<(), EncodeFault>
    ensures writes { OnOk result (Writes writer.old writer.new (find_fields coll.now filter.now)) }
    ensures stops { IfErr result (Stopped (find_fields coll.now filter.now)) }
{
    writer.text("find", coll)?;
    writer.document("filter", filter)?;
    writer.int32("limit", 1)?;
    writer.truth("singleBatch", true)
}
