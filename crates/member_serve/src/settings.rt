ghost use Rattle.std.specs.Prelude.{◌≡◌, ◌≤◌, ◌∷◌, [], IfSome, MatchOption, None, Some, length};
ghost use Rattle.std.specs.List.{list_all};
ghost use Rattle.std.specs.Char.{is_ascii_digit};
ghost use Rattle.member_serve.specs.Words.{MOST_SET, asks, is_set as names_set, is_whole, number_to as number_from};

use bson_doc::Text;

/// The greatest port.
const GREATEST_PORT: u64 = 65_535;

/// The greatest number of turns.
const GREATEST_TURNS: u64 = 1_000_000;

/// The most bytes of a set's name.
const LONGEST_SET: usize = 1_000_000;

/// What the words `PORT SET TURNS` ask for.
#[derive(Clone, Copy, Debug)]
pub struct Settings<'a> {
    /// The port that is listened on, from 1.
    pub port: u16,
    /// The name of the set whose one member is served: from 1 to 1,000,000 bytes.
    pub set: &'a str,
    /// After how many turns in which nothing came the serving ends: from 1 to 1,000,000.
    pub turns: u32,
}

/// Reads the words of a command line behind the program's name; None where they are refused. PORT is from 1 to 65535 and
/// TURNS from 1 to 1,000,000, digits alone and without a leading zero; SET is not empty and has at most 1,000,000 bytes.
pub fn read_words(words: &[Text]) -> Option<Settings<'_>>
    ensures asked { MatchOption result (asks words.now ≡ None) (λ s. asks words.now ≡ Some (record { port = s.port; set = s.set.now; turns = s.turns })) }
    ensures port { IfSome result (λ s. 1 ≤ s.port) }
    ensures set { IfSome result (λ s. length s.set.now ≤ MOST_SET) }
{
    let [port, set, turns] = words else {
        return None;
    };
    read_three(port.as_str(), set.as_str(), turns.as_str())
}

/// Reads three words.
fn read_three<'a>(port: &str, set: &'a str, turns: &str) -> Option<Settings<'a>>
    ensures asked { MatchOption result (asks (port.now ∷ set.now ∷ turns.now ∷ []) ≡ None) (λ s. asks (port.now ∷ set.now ∷ turns.now ∷ []) ≡ Some (record { port = s.port; set = s.set.now; turns = s.turns })) }
    ensures port { IfSome result (λ s. 1 ≤ s.port) }
    ensures set { IfSome result (λ s. length s.set.now ≤ MOST_SET) }
{
    let Some(port) = number_to(port, GREATEST_PORT) else {
        return None;
    };
    let Some(turns) = number_to(turns, GREATEST_TURNS) else {
        return None;
    };
    if !is_set(set) {
        return None;
    }
    Some(Settings {
        port: port as u16,
        set,
        turns: turns as u32,
    })
}

/// Whether a set may have that name.
fn is_set(name: &str) -> bool
    ensures { result ≡ names_set name.now }
{
    !name.is_empty() && name.len() <= LONGEST_SET
}

/// The number from 1 to `most` that the word spells: decimal digits without a sign and without a leading zero.
fn number_to(word: &str, most: u64) -> Option<u64>
    ensures value { result ≡ number_from most word.now }
    ensures least { IfSome result (λ n. 1 ≤ n) }
    ensures most { IfSome result (λ n. n ≤ most) }
{
    if !is_digits(word) {
        return None;
    }
    let Ok(number) = word.parse::<u64>() else {
        return None;
    };
    if 1 <= number && number <= most {
        Some(number)
    } else {
        None
    }
}

/// Whether the word is decimal digits without a leading zero.
fn is_digits(word: &str) -> bool
    ensures { result ≡ is_whole word.now }
{
    let digits = word.as_bytes();
    all_digits(digits) && !digits.is_empty() && (digits.len() == 1 || digits[0] != b'0')
}

fn all_digits(digits: &[u8]) -> bool
    ensures { result ≡ list_all is_ascii_digit digits.now }
{
    digits.iter().all(|b| b.is_ascii_digit())
}
