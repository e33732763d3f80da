ghost use Rattle.bson_doc.specs.Names.{HasNoZero};

use bson_doc::{Document, Text, Value};
use std::alloc::Global;

/// Puts a field whose value is a string.
pub fn put_text(alloc: Global, document: &mut Document, name: &str, text: &str) -> Option<()>
    requires { HasNoZero name.now }
{
    let text = Text::take(alloc, text).ok()?;
    document.put(alloc, name, Value::Str(text)).ok()
}
