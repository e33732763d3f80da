//! Changes of one session among all that were made.
ghost use Rattle.std.specs.Prelude.{◌≡◌, ◌≢◌, ◌<◌, ◌+ℤ◌, ◌++◌, pos, Some, length, slice_get, slice_set, vec_capacity};
ghost use Rattle.sess_book.specs.Entries.{kept_again};
ghost use Rattle.sess_book.specs.Sessions.{MOST};

use crate::{Holding, Kept, Session};
use bson_doc::Lsid;

/// The session at that place is held so from now on. Gives its id.
pub(crate) fn hold_at(made: &mut Vec<Session>, place: usize, holding: Holding) -> Lsid
    requires { place < length made.old.items }
    ensures made { (x : Session) → slice_get made.old.items place ≡ Some x → made.new.items ≡ slice_set made.old.items place (record x { holding = holding }) }
    ensures id { (x : Session) → slice_get made.old.items place ≡ Some x → result ≡ x.lsid }
{
    let session = made[place];
    made[place] = Session { holding, ..session };
    session.lsid
}

/// The session at that place has drawn its next number. Gives the number.
pub(crate) fn draw_at(made: &mut Vec<Session>, place: usize) -> i64
    requires { (x : Session) × (slice_get made.old.items place ≡ Some x) × (x.number ≢ MOST) }
    ensures made { (x : Session) → slice_get made.old.items place ≡ Some x
        → made.new.items ≡ slice_set made.old.items place (record x { number = result; holding = Holding.Drawn }) }
    ensures number { (x : Session) → slice_get made.old.items place ≡ Some x → result ≡ x.number +ℤ pos 1 }
{
    let session = made[place];
    let number = session.number + 1;
    made[place] = Session {
        number,
        holding: Holding::Drawn,
        ..session
    };
    number
}

/// Puts the session at that place behind those that wait to be leased again, where it is kept.
pub(crate) fn keep_if(is_kept: bool, kept: &mut Vec<Kept>, place: usize, moment: u64)
    requires { length kept.old.items < vec_capacity kept.old }
    ensures kept { kept.new.items ≡ kept.old.items ++ kept_again is_kept place moment }
    ensures room { vec_capacity kept.new ≡ vec_capacity kept.old }
{
    if is_kept {
        kept.push_reserved(Kept {
            place,
            last_use: moment,
        });
    }
}
