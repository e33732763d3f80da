//! What a member answers to commands that ask for documents or change them.
ghost use Rattle.std.specs.Prelude.{◌≡◌, ◌++◌, ◌∷◌, [], IfOk, OnOk, codes};
ghost use Rattle.bson_doc.specs.declared.value.Value.{Array, Doc};
ghost use Rattle.bson_doc.specs.declared.value.Value.TheVariants.{Str};
ghost use Rattle.member_core.specs.Replies.{concern, concern_error, double_one, empty_cursor, find_reply as reply_to_find, modified, ok, plain_ok as plain, refusal as refused, write_result as result_of_write};

use crate::Memory;
use bson_doc::{Document, Rows, Text, Value};
use cmd_outcome::{NOT_WRITABLE_PRIMARY, RETRYABLE_WRITE_ERROR};
use std::alloc::Global;

/// The bytes of the double 1.0 (IEEE 754).
const ONE: [u8; 8] = [0, 0, 0, 0, 0, 0, 0xf0, 0x3f];

/// WriteConcernFailed (MongoDB, error codes).
const WRITE_CONCERN_FAILED: i32 = 64;

/// Says that the command was carried out.
pub(crate) fn put_ok(alloc: Global, reply: &mut Document) -> Result<(), Memory>
    ensures { OnOk result (reply.new.elements ≡ reply.old.elements ++ ok ∷ []) }
{
    reply.put(alloc, "ok", Value::Double(ONE))
}

/// The answer that says no more than ok.
pub(crate) fn plain_ok(alloc: Global) -> Result<Document, Memory>
    ensures { IfOk result (λ d. d ≡ plain) }
{
    let mut reply = Document::new(alloc);
    put_ok(alloc, &mut reply)?;
    Ok(reply)
}

/// The result of a write of one document.
pub(crate) fn write_result(alloc: Global, is_update: bool, lead: bool) -> Result<Document, Memory>
    ensures { IfOk result (λ d. d ≡ result_of_write is_update lead) }
{
    let mut reply = Document::new(alloc);
    reply.put(alloc, "n", Value::Int32(1))?;
    put_modified(alloc, &mut reply, is_update)?;
    put_ok(alloc, &mut reply)?;
    put_concern_error(alloc, &mut reply, lead)?;
    Ok(reply)
}

/// How many documents an update changed.
fn put_modified(alloc: Global, reply: &mut Document, is_update: bool) -> Result<(), Memory>
    ensures { OnOk result (reply.new.elements ≡ reply.old.elements ++ modified is_update) }
{
    if is_update {
        reply.put(alloc, "nModified", Value::Int32(1))?;
    }
    Ok(())
}

/// That no majority has the write, where the member is not the last elected one.
fn put_concern_error(alloc: Global, reply: &mut Document, lead: bool) -> Result<(), Memory>
    ensures { OnOk result (reply.new.elements ≡ reply.old.elements ++ concern_error lead) }
{
    if !lead {
        let concern = failed_concern(alloc)?;
        reply.put(alloc, "writeConcernError", Value::Doc(concern))?;
    }
    Ok(())
}

fn failed_concern(alloc: Global) -> Result<Document, Memory>
    ensures { IfOk result (λ d. d ≡ concern) }
{
    let mut concern = Document::new(alloc);
    concern.put(alloc, "code", Value::Int32(WRITE_CONCERN_FAILED))?;
    Ok(concern)
}

/// The error of a write at a member that takes none.
pub(crate) fn refusal(alloc: Global) -> Result<Document, Memory>
    ensures { IfOk result (λ d. d ≡ refused) }
{
    let mut reply = Document::new(alloc);
    reply.put(alloc, "ok", Value::Double([0; 8]))?;
    reply.put(alloc, "code", Value::Int32(NOT_WRITABLE_PRIMARY))?;
    reply.put(alloc, "errorLabels", label(alloc, RETRYABLE_WRITE_ERROR)?)?;
    Ok(reply)
}

/// An array of one string.
fn label(alloc: Global, name: &str) -> Result<Value, Memory>
    ensures { IfOk result (λ v. v ≡ Array (Str name.now ∷ [])) }
{
    let mut labels = Rows::new(alloc);
    labels.push(Value::Str(Text::take(alloc, name)?))?;
    Ok(Value::Array(labels))
}

/// The answer to a find: no documents.
pub(crate) fn find_reply(alloc: Global) -> Result<Document, Memory>
    ensures { IfOk result (λ d. d ≡ reply_to_find) }
{
    let mut reply = Document::new(alloc);
    reply.put(alloc, "cursor", Value::Doc(cursor(alloc)?))?;
    put_ok(alloc, &mut reply)?;
    Ok(reply)
}

fn cursor(alloc: Global) -> Result<Document, Memory>
    ensures { IfOk result (λ d. d ≡ empty_cursor) }
{
    let mut cursor = Document::new(alloc);
    cursor.put(alloc, "firstBatch", Value::Array(Rows::new(alloc)))?;
    cursor.put(alloc, "id", Value::Int64(0))?;
    Ok(cursor)
}
