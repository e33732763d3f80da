ghost use Rattle.std.specs.Prelude.{◌≡◌};
ghost use Rattle.rtt_mean.specs.Mean.{next_mean};

/// The mean after one more round trip: `sample` where there is no old mean, else `(sample + 4 * old) / 5` rounded down.
///
/// No pair of numbers overflows.
pub fn next(old: Option<u64>, sample: u64) -> u64
    ensures { result ≡ next_mean old sample }
{
    match old {
        None => sample,
        Some(old) => ((u128::from(sample) + 4 * u128::from(old)) / 5) as u64,
    }
}
