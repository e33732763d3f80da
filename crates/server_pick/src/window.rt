ghost use Rattle.std.specs.Prelude.{◌≡◌, ◌+◌, Some, filter, length, nat_le, option_copied, slice_get};
ghost use Rattle.server_pick.specs.Windows.{lesser as lesser_lem, least_of};

use crate::Candidate;

/// The lesser of the least mean so far and one more.
fn lesser(least: Option<u64>, mean: u64) -> Option<u64>
    ensures { result ≡ lesser_lem least (Some mean) }
{
    match least {
        Some(least) => Some(least.min(mean)),
        None => Some(mean),
    }
}

/// The least mean, none where there are no candidates.
pub fn least_mean(kept: &[Candidate]) -> Option<u64>
    ensures { result ≡ least_of (λ c. c.mean) kept.now }
{
    let mut least = None;
    for candidate in kept {
        least = lesser(least, candidate.mean);
    }
    least
}

/// The greatest mean that is within the latency window.
pub fn end_of(least: u64, threshold: u64) -> u128
    ensures { result ≡ least + threshold }
{
    u128::from(least) + u128::from(threshold)
}

/// Whether a mean is at most the greatest one in the window.
fn is_within(mean: u64, end: u128) -> bool
    ensures { result ≡ nat_le mean end }
{
    u128::from(mean) <= end
}

/// How many candidates are in the window.
pub fn count_within(kept: &[Candidate], end: u128) -> usize
    ensures { result ≡ length (filter (λ c. nat_le c.mean end) kept.now) }
{
    let mut count = 0;
    for candidate in kept {
        if is_within(candidate.mean, end) {
            count += 1;
        }
    }
    count
}

/// The candidate at the place in the window, in the order of hosts.
pub fn nth_within(kept: &[Candidate], end: u128, place: usize) -> Option<&Candidate>
    ensures { option_copied result ≡ slice_get (filter (λ c. nat_le c.mean end) kept.now) place }
{
    let mut before = place;
    for candidate in kept {
        if is_within(candidate.mean, end) {
            if before == 0 {
                return Some(candidate);
            }
            before -= 1;
        }
    }
    None
}
