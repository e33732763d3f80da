ghost use Rattle.std.specs.Prelude.{◌≡◌};
ghost use Rattle.sess_book.specs.Ids.{id_of};

use bson_doc::Lsid;
use uuid::{Builder, Uuid};

/// The id of a new session: a version 4 UUID made from two random words (Driver Sessions, Generating a Session ID locally).
pub fn fresh_id(w1: u64, w2: u64) -> Lsid
    ensures { result ≡ id_of w1 w2 }
{
    let random = Uuid::from_u64_pair(w1, w2).into_bytes();
    Lsid(Builder::from_random_bytes(random).into_uuid().into_bytes())
}
