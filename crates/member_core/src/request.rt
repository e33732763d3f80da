//! What a member reads of a request's document.
ghost use Rattle.std.specs.Prelude.{◌≡◌};
ghost use Rattle.member_core.specs.Keys.{command_name as name_of_command, id_from, is_write as writes, key_of as key_of_request, lsid_of, number_of};

use crate::Key;
use bson_doc::{Document, Lsid, Value};

/// The subtype of a UUID (bsonspec 1.1, binary).
const UUID: u8 = 4;

/// How many bytes a UUID has.
const UUID_SIZE: usize = 16;

/// The command's name: the first name of the document, empty where there is none.
pub(crate) fn command_name(body: &Document) -> &str
    ensures { result.now ≡ name_of_command body.now }
{
    match body.at(0) {
        Some((name, _)) => name.as_str(),
        None => "",
    }
}

/// Whether the command writes.
pub(crate) fn is_write(body: &Document) -> bool
    ensures { result ≡ writes body.now }
{
    let name = command_name(body);
    name == "insert" || name == "update" || name == "delete" || name == "findAndModify"
}

/// What a write is known by: the session's id and number that it carries, else the request's place.
pub(crate) fn key_of(body: &Document, stream: u64, nth: u64) -> Key
    ensures { result ≡ key_of_request body.now stream nth }
{
    match (lsid_in(body), number_in(body)) {
        (Some(lsid), Some(number)) => Key::Numbered { lsid, number },
        _ => Key::Placed { stream, nth },
    }
}

/// The session's id that the command carries (Driver Sessions, lsid).
fn lsid_in(body: &Document) -> Option<Lsid>
    ensures { result ≡ lsid_of body.now }
{
    id_in(body.get("lsid")?.document()?.get("id")?)
}

/// The transaction number that the command carries (Retryable Writes, txnNumber).
fn number_in(body: &Document) -> Option<i64>
    ensures { result ≡ number_of body.now }
{
    body.get("txnNumber")?.int64()
}

/// A UUID.
fn id_in(value: &Value) -> Option<Lsid>
    ensures { result ≡ id_from value.now }
{
    match value {
        Value::Binary { subtype, bytes } if *subtype == UUID && bytes.len() == UUID_SIZE => {
            let mut id = [0; UUID_SIZE];
            id.copy_from_slice(bytes.as_slice());
            Some(Lsid(id))
        }
        _ => None,
    }
}
