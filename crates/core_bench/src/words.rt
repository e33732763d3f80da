ghost use Rattle.std.specs.Prelude.{◌≢◌, ◌≤◌, IfSome};

use std::env::Args;

/// The most calls of a run whose first and last tenth are measured.
const MOST_CALLS: u32 = 1_000_000;

/// The number that the next word says, within these bounds.
pub fn number(words: &mut Args, least: u32, most: u32) -> Option<u32>
    ensures least { IfSome result (λ number. least ≤ number) }
    ensures most { IfSome result (λ number. number ≤ most) }
{
    let number: u32 = words.next()?.as_str().parse().ok()?;
    if number < least || number > most {
        return None;
    }
    Some(number)
}

/// How many rounds the next word says, at least one.
pub fn rounds(words: &mut Args) -> Option<u32>
    ensures { IfSome result (λ rounds. rounds ≢ 0) }
{
    number(words, 1, u32::MAX)
}

/// A tenth of the calls that the next word says: a multiple of ten from 10 to 1,000,000.
pub fn tenth(words: &mut Args) -> Option<u32>
    ensures { IfSome result (λ tenth. tenth ≢ 0) }
{
    let calls = number(words, 10, MOST_CALLS)?;
    if calls % 10 != 0 {
        return None;
    }
    Some(calls / 10)
}
