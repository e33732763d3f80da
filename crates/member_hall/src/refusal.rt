//! The answer to a write that a plan refuses.
ghost use Rattle.std.specs.Prelude.{◌≡◌, ◌++◌, ◌∷◌, [], ◌||◌, IfOk, OnOk};
ghost use Rattle.bson_doc.specs.declared.value.Value.TheVariants.{Str};
ghost use Rattle.member_hall.specs.Requests.{label_field, labels as labels_of, refusal as refusal_of};

use crate::Memory;
use bson_doc::{Document, Rows, Text, Value};
use cmd_outcome::{NO_WRITES_PERFORMED, RETRYABLE_WRITE_ERROR};
use std::alloc::Global;

/// The error of that code, with the labels that it has.
pub fn refusal(
    alloc: Global,
    code: i32,
    retryable: bool,
    no_writes: bool,
) -> Result<Document, Memory>
    ensures { IfOk result (λ d. d ≡ refusal_of code retryable no_writes) }
{
    let mut reply = Document::new(alloc);
    reply.put(alloc, "ok", Value::Double([0; 8]))?;
    reply.put(alloc, "code", Value::Int32(code))?;
    put_labels(alloc, &mut reply, retryable, no_writes)?;
    Ok(reply)
}

/// The field of the labels, where there is one.
fn put_labels(
    alloc: Global,
    reply: &mut Document,
    retryable: bool,
    no_writes: bool,
) -> Result<(), Memory>
    ensures { OnOk result (reply.new.elements ≡ reply.old.elements ++ label_field (retryable || no_writes) (labels_of retryable no_writes)) }
{
    if retryable || no_writes {
        let labels = labels(alloc, retryable, no_writes)?;
        reply.put(alloc, "errorLabels", Value::Array(labels))?;
    }
    Ok(())
}

/// The labels.
fn labels(alloc: Global, retryable: bool, no_writes: bool) -> Result<Rows<Value>, Memory>
    ensures { IfOk result (λ l. l ≡ labels_of retryable no_writes) }
{
    let mut labels = Rows::new(alloc);
    if retryable {
        put_label(alloc, &mut labels, RETRYABLE_WRITE_ERROR)?;
    }
    if no_writes {
        put_label(alloc, &mut labels, NO_WRITES_PERFORMED)?;
    }
    Ok(labels)
}

fn put_label(alloc: Global, labels: &mut Rows<Value>, label: &str) -> Result<(), Memory>
    ensures { OnOk result (labels.new ≡ labels.old ++ Str label.now ∷ []) }
{
    labels.push(Value::Str(Text::take(alloc, label)?))
}
