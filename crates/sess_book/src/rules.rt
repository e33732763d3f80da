//! The rules of the book, on their values.
ghost use Rattle.std.specs.Prelude.{◌≡◌, ◌≤◌, ◌*◌, ◌^◌};
ghost use Rattle.sess_book.specs.Sessions.{has_minute_left as has_a_minute_left, is_kept as is_kept_by, micros_of as micros_of_minutes};

use crate::Kept;

/// A minute, in microseconds.
const MINUTE: u128 = 60_000_000;

/// Whether a kept session has a minute left at a moment, where servers end sessions after so many minutes without use.
pub(crate) fn has_minute_left(minutes: i64, moment: u64, kept: Kept) -> bool
    ensures { result ≡ has_a_minute_left minutes moment kept }
{
    u128::from(moment) + MINUTE <= u128::from(kept.last_use) + micros_of(minutes)
}

/// A number of minutes in microseconds; none is negative.
fn micros_of(minutes: i64) -> u128
    ensures value { result ≡ micros_of_minutes minutes }
    ensures bound { result ≤ 2 ^ 63 * 60000000 }
{
    if minutes < 0 {
        0
    } else {
        (minutes as u64) as u128 * MINUTE
    }
}

/// Whether a session that is given back is kept: it is not dirty, and has a number left.
pub(crate) fn is_kept(dirty: bool, number: i64) -> bool
    ensures { result ≡ is_kept_by dirty number }
{
    !dirty && number != i64::MAX
}
