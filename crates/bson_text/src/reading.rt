ghost use Rattle.std.specs.Prelude.{◌≡◌, ◌≢◌, Ok, Err, IfOk, IfErr};
ghost use Rattle.serde_json.specs.View.{view};
ghost use Rattle.bson_text.specs.Reading.{reading};

use crate::TextFault;
use crate::flaw::Stop;
use crate::walk::document_at;
use bson_doc::Document;
use serde_json::Value;
use std::alloc::Global;

/// The depth of what lies in the outermost object.
const INSIDE: u32 = 2;

/// The document of a JSON object (bsonspec 1.1, document), with an element for each member in order.
///
/// Integers in i32's range become Int32, others in i64's range Int64. A value without a document is refused by its first
/// fault in the order of the walk; where memory runs out first, that is told.
pub fn from_json(alloc: Global, value: &Value) -> Result<Document, TextFault>
    ensures document { IfOk result (λ d. reading (view value.now) ≡ Ok d) }
    ensures fault { IfErr result (λ e. e ≢ TextFault.Memory → reading (view value.now) ≡ Err e) }
{
    let Value::Object(members) = value else {
        return Err(TextFault::Shape);
    };
    match document_at(alloc, members, INSIDE) {
        Ok(document) => Ok(document),
        Err(Stop::Flawed(flaw)) => Err(flaw.into_fault(alloc)),
        Err(Stop::Memory) => Err(TextFault::Memory),
    }
}
