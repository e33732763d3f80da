//! What stands under a name of a reply.
ghost use Rattle.std.specs.Prelude.{◌≡◌};
ghost use Rattle.std.specs.Option.{option_copied, option_map};
ghost use Rattle.cmd_outcome.specs.Replies.{code_in as code_of_document, code_of as code_of_value, document_at, items_at, whole_at};

use bson_doc::{Document, Value};

/// The document under that name.
pub(crate) fn document<'a>(parent: &'a Document, name: &str) -> Option<&'a Document>
    ensures { option_copied result ≡ document_at name.now parent.now }
{
    parent.get(name)?.document()
}

/// The items of the array under that name.
pub(crate) fn items<'a>(parent: &'a Document, name: &str) -> Option<&'a [Value]>
    ensures { option_map (λ items. items.now) result ≡ items_at name.now parent.now }
{
    parent.get(name)?.items()
}

/// The whole number under that name.
pub(crate) fn whole(parent: &Document, name: &str) -> Option<i64>
    ensures { result ≡ whole_at name.now parent.now }
{
    parent.get(name)?.whole()
}

/// The code of an error, 0 where it has none.
pub(crate) fn code_in(error: &Document) -> i32
    ensures { result ≡ code_of_document error.now }
{
    match error.get("code") {
        Some(Value::Int32(code)) => *code,
        _ => 0,
    }
}

/// The code of a write error, 0 where it has none or is no document.
pub(crate) fn code_of(error: &Value) -> i32
    ensures { result ≡ code_of_value error.now }
{
    match error.document() {
        Some(document) => code_in(document),
        None => 0,
    }
}
