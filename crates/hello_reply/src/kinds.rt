ghost use Rattle.std.specs.Prelude.{◌≡◌};
ghost use Rattle.hello_reply.specs.Kinds.{is_ok as has_ok, says as says_true, is_router as has_router_message, member_kind as kind_of_member, kind_of as kind_of_reply};

use crate::fields::given;
use crate::{FieldName, ServerKind};
use bson_doc::{Document, Value, is_one};

/// What routers of sharded clusters say in `msg`.
const ROUTER: &str = "isdbgrid";

/// Whether the reply says that hello succeeded.
pub(crate) fn is_ok(reply: &Document) -> bool
    ensures { result ≡ has_ok reply.now.elements }
{
    match reply.get("ok") {
        Some(value) => is_one(value),
        None => false,
    }
}

/// The kind of server that a reply comes from whose `ok` is one.
pub(crate) fn kind_of(reply: &Document) -> ServerKind
    ensures { result ≡ kind_of_reply reply.now.elements }
{
    if says(reply, "isreplicaset") {
        ServerKind::Ghost
    } else if given(reply, FieldName::SetName).is_some() {
        member_kind(reply)
    } else if is_router(reply) {
        ServerKind::Mongos
    } else {
        ServerKind::Standalone
    }
}

/// The kind of a member of a replica set.
fn member_kind(reply: &Document) -> ServerKind
    ensures { result ≡ kind_of_member reply.now.elements }
{
    if says(reply, "hidden") {
        ServerKind::Other
    } else if says(reply, "isWritablePrimary") {
        ServerKind::Primary
    } else if says(reply, "secondary") {
        ServerKind::Secondary
    } else if says(reply, "arbiterOnly") {
        ServerKind::Arbiter
    } else {
        ServerKind::Other
    }
}

/// Whether the reply has the boolean true under that name.
fn says(reply: &Document, name: &str) -> bool
    ensures { result ≡ says_true name.now reply.now.elements }
{
    match reply.get(name) {
        Some(Value::Bool(truth)) => *truth,
        _ => false,
    }
}

/// Whether the reply is a router's.
fn is_router(reply: &Document) -> bool
    ensures { result ≡ has_router_message reply.now.elements }
{
    match reply.get("msg") {
        Some(Value::Str(text)) => text.as_str() == ROUTER,
        _ => false,
    }
}
