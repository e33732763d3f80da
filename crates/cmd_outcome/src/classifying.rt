ghost use Rattle.std.specs.Prelude.{◌≡◌, codes};
ghost use Rattle.std.specs.Option.{option_and_then};
ghost use Rattle.cmd_outcome.specs.Replies.{batch_length as length_of_batch, concern_error, count_in, has_label as has_that_label, is_ok as has_ok, is_string as is_that_string, reading_of, result_by_concern, result_in, state_in, state_in_concern, state_in_error, version_of_reply, whole_at, document_at, write_errors as errors_of_writes};

use crate::codes::{NO_WRITES_PERFORMED, RETRYABLE_WRITE_ERROR, state_change};
use crate::fields::{code_in, code_of, document, items, whole};
use crate::{Reading, ReplyResult, StateChange};
use bson_doc::{Document, TopologyVersion, Value, is_one};

/// All that a driver reads of a reply to a command (CRUD, Retryable Writes, SDAM: error handling). It takes no memory.
pub fn classify(reply: &Document) -> Reading
    ensures reading { result ≡ reading_of reply.now }
{
    Reading {
        result: result_of(reply),
        retryable: has_label(reply, RETRYABLE_WRITE_ERROR),
        no_writes: has_label(reply, NO_WRITES_PERFORMED),
        state: state_of(reply),
        version: version_of(reply),
    }
}

/// What the command came to.
fn result_of(reply: &Document) -> ReplyResult
    ensures { result ≡ result_in reply.now }
{
    if !is_ok(reply) {
        return ReplyResult::Error {
            code: code_in(reply),
        };
    }
    match write_errors(reply) {
        [] => result_of_concern(reply),
        [first, ..] => ReplyResult::WriteErrors {
            count: write_errors(reply).len().min(u32::MAX as usize) as u32,
            first: code_of(first),
        },
    }
}

/// What a command came to that was carried out without write errors.
fn result_of_concern(reply: &Document) -> ReplyResult
    ensures { result ≡ result_by_concern (concern_error reply.now) reply.now }
{
    match document(reply, "writeConcernError") {
        Some(concern) => ReplyResult::Concern {
            code: code_in(concern),
        },
        None => ReplyResult::Ok {
            n: count_of(reply),
            modified: whole(reply, "nModified").unwrap_or(0),
        },
    }
}

/// Whether the reply's `ok` is one.
fn is_ok(reply: &Document) -> bool
    ensures { result ≡ has_ok reply.now }
{
    match reply.get("ok") {
        Some(value) => is_one(value),
        None => false,
    }
}

/// The items of `writeErrors`, none where it is no array.
fn write_errors(reply: &Document) -> &[Value]
    ensures { result.now ≡ errors_of_writes reply.now }
{
    match items(reply, "writeErrors") {
        Some(errors) => errors,
        None => &[],
    }
}

/// How many documents the command concerned.
fn count_of(reply: &Document) -> i64
    ensures { result ≡ count_in reply.now }
{
    if let Some(n) = whole(reply, "n") {
        return n;
    }
    if let Some(n) = count_of_last_error(reply) {
        return n;
    }
    batch_length(reply).unwrap_or(0)
}

/// The `n` of `lastErrorObject`.
fn count_of_last_error(reply: &Document) -> Option<i64>
    ensures { result ≡ option_and_then (whole_at (codes "n")) (document_at (codes "lastErrorObject") reply.now) }
{
    whole(document(reply, "lastErrorObject")?, "n")
}

/// How many documents the cursor's first batch has.
fn batch_length(reply: &Document) -> Option<i64>
    ensures { result ≡ length_of_batch reply.now }
{
    let batch = items(document(reply, "cursor")?, "firstBatch")?;
    Some(batch.len().min(i64::MAX as usize) as i64)
}

/// Whether the reply has the label.
fn has_label(reply: &Document, label: &str) -> bool
    ensures { result ≡ has_that_label label.now reply.now }
{
    match items(reply, "errorLabels") {
        Some(labels) => labels.iter().any(|value| is_string(label, value)),
        None => false,
    }
}

/// Whether the value is that string.
fn is_string(text: &str, value: &Value) -> bool
    ensures { result ≡ is_that_string text.now value.now }
{
    match value {
        Value::Str(found) => found.as_str() == text,
        _ => false,
    }
}

/// The state change that the error tells, else the one that the write concern error tells.
fn state_of(reply: &Document) -> Option<StateChange>
    ensures { result ≡ state_in reply.now }
{
    match state_of_error(reply) {
        Some(change) => Some(change),
        None => state_of_concern(reply),
    }
}

fn state_of_error(reply: &Document) -> Option<StateChange>
    ensures { result ≡ state_in_error reply.now }
{
    if is_ok(reply) {
        None
    } else {
        state_change(code_in(reply))
    }
}

fn state_of_concern(reply: &Document) -> Option<StateChange>
    ensures { result ≡ state_in_concern reply.now }
{
    state_change(code_in(document(reply, "writeConcernError")?))
}

/// The server's topology version, where it is whole.
fn version_of(reply: &Document) -> Option<TopologyVersion>
    ensures { result ≡ version_of_reply reply.now }
{
    reply.get("topologyVersion")?.topology_version()
}
