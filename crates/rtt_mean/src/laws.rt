ghost use Rattle.std.specs.Prelude.{◌≡◌, ℕ, List, [], ◌∷◌, ◌++◌, None, Some};
ghost use Rattle.rtt_mean.specs.Mean.{mean, next_mean};

/// The law of the mean: there is none of no round trips, and `next` of the mean of some round trips and one more is
/// the mean of the longer list.
pub fn next_extends_mean()
    ensures none { mean [] ≡ None }
    ensures one_more { (samples : List ℕ) (sample : ℕ) → mean (samples ++ sample ∷ []) ≡ Some (next_mean (mean samples) sample) }
{}
