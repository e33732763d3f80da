ghost use Rattle.std.specs.Prelude.{◌≡◌, ◌≢◌, ◌+◌, ◌-◌, ◌%◌, ◌<◌, Some, filter, length, nat_le, option_copied, slice_get};
ghost use Rattle.std.specs.List.{remove};
ghost use Rattle.server_pick.specs.Windows.{choice, lighter as lighter_lem, window};

use crate::Candidate;
use crate::window::{count_within, end_of, least_mean, nth_within};

/// The candidate with fewer operations in flight, the first on a tie, and where there is no second.
fn lighter<'a>(first: &'a Candidate, second: Option<&'a Candidate>) -> &'a Candidate
    ensures { result.now ≡ lighter_lem (λ c. c.in_flight) first.now (option_copied second.entry) }
{
    match second {
        Some(second) => {
            if second.in_flight < first.in_flight {
                second
            } else {
                first
            }
        }
        None => first,
    }
}

/// The place that a word draws of so many.
fn drawn(word: u64, count: usize) -> usize
    requires { count ≢ 0 }
    ensures value { result ≡ word % count }
    ensures within { result < count }
{
    (word % count as u64) as usize
}

/// The candidate that a word draws of those in the window other than the first, of so many in all.
fn another(
    kept: &[Candidate],
    end: u128,
    first: usize,
    count: usize,
    word: u64,
) -> Option<&Candidate>
    requires count { count ≡ length (filter (λ c. nat_le c.mean end) kept.now) }
    requires first { first < count }
    ensures { option_copied result ≡ slice_get (remove (filter (λ c. nat_le c.mean end) kept.now) first) (word % (count - 1)) }
{
    if count == 1 {
        return None;
    }
    let place = drawn(word, count - 1);
    if place < first {
        nth_within(kept, end, place)
    } else {
        nth_within(kept, end, place + 1)
    }
}

/// The candidate that is chosen: the choice of two in the window.
pub fn choose(kept: &[Candidate], threshold: u64, w1: u64, w2: u64) -> Option<&Candidate>
    ensures { option_copied result ≡ choice (λ c. c.in_flight) w1 w2 (window (λ c. c.mean) threshold kept.now) }
{
    let Some(least) = least_mean(kept) else {
        return None;
    };
    choose_within(kept, end_of(least, threshold), w1, w2)
}

/// The choice of two of those whose mean is at most so much.
fn choose_within(kept: &[Candidate], end: u128, w1: u64, w2: u64) -> Option<&Candidate>
    ensures { option_copied result ≡ choice (λ c. c.in_flight) w1 w2 (filter (λ c. nat_le c.mean end) kept.now) }
{
    let count = count_within(kept, end);
    if count == 0 {
        return None;
    }
    let place = drawn(w1, count);
    let Some(first) = nth_within(kept, end, place) else {
        return None;
    };
    let second = another(kept, end, place, count, w2);
    Some(lighter(first, second))
}
