//! Numbers that words spell.
ghost use Rattle.std.specs.Prelude.{◌≡◌, ◌≤◌, ◌<◌, IfSome, length};
ghost use Rattle.std.specs.List.{list_all};
ghost use Rattle.std.specs.Char.{is_ascii_digit};
ghost use Rattle.run_words.specs.Words.{are_digits as spells_digits, number_from as number_of};

/// The number from `least` to `most` that a word spells: decimal digits, at least one, without a sign.
pub(crate) fn number_from(word: &str, least: u64, most: u64) -> Option<u64>
    ensures value { result ≡ number_of least most word.now }
    ensures least { IfSome result (λ n. least ≤ n) }
    ensures most { IfSome result (λ n. n ≤ most) }
{
    if !are_digits(word) {
        return None;
    }
    let Ok(number) = word.parse::<u64>() else {
        return None;
    };
    if least <= number && number <= most {
        Some(number)
    } else {
        None
    }
}

/// Whether the word is decimal digits, at least one.
fn are_digits(word: &str) -> bool
    ensures { result ≡ spells_digits word.now }
{
    let digits = word.as_bytes();
    all_digits(digits) && !digits.is_empty()
}

fn all_digits(digits: &[u8]) -> bool
    ensures { result ≡ list_all is_ascii_digit digits.now }
{
    digits.iter().all(|b| b.is_ascii_digit())
}
