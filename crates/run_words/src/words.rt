ghost use Rattle.std.specs.Prelude.{◌≡◌, ◌≤◌, ◌&&◌, IfErr, IfOk, None, Ok, is_some, length, map, true};
ghost use Rattle.run_words.specs.Asking.{Stops};
ghost use Rattle.run_words.specs.Line.{words_of as words_of_line};
ghost use Rattle.run_words.specs.Words.{MOST_COMMANDS, MOST_SEED, MOST_WORD, are_short as are_all_short, asks, dash_in as first_dash, has_dash as begins_with_dash, is_short as is_short_word, number_from as number_of, run_of, soak_of, task_of};
ghost use Rattle.conn_uri.specs.Reading.{settings_of};

use crate::fault::UseFault;
use crate::line::{Line, read_line};
use crate::numbers::number_from;
use crate::task::Task;
use bson_doc::Text;
use conn_uri::UriFault;
use std::alloc::{AllocError, Global};

/// Why words ask for nothing.
#[derive(Debug, Drop)]
pub enum WordStop {
    /// They are refused.
    Fault(UseFault),
    /// There was no memory to read them. They are `run` and one word, or `soak` and two numbers in range.
    Memory,
}

/// The most bytes that a word may have.
const LONGEST_WORD: usize = 16_777_216;

/// The greatest number of commands of a soak.
const MOST_SOAKED: u64 = 100_000;

/// Reads the words of a command line, those behind the program's name.
pub fn read_words(alloc: Global, words: &[Text]) -> Result<Task, WordStop>
    ensures ok { IfOk result (λ task. asks words.now ≡ Ok task) }
    ensures stop { IfErr result (λ e. Stops e (asks words.now)) }
{
    if let Some(place) = dash_in(words) {
        return Err(WordStop::Fault(UseFault::Dash {
            place: place as u64,
        }));
    }
    if !are_short(words) {
        return Err(WordStop::Fault(UseFault::Words));
    }
    read_task(alloc, words)
}

/// Reads words that are short and of which none begins with a dash.
fn read_task(alloc: Global, words: &[Text]) -> Result<Task, WordStop>
    requires dashless { first_dash words.now ≡ None }
    requires short { are_all_short words.now ≡ true }
    ensures ok { IfOk result (λ task. task_of words.now ≡ Ok task) }
    ensures stop { IfErr result (λ e. Stops e (task_of words.now)) }
{
    let Ok(texts) = texts(alloc, words) else {
        return Err(stop_of(words));
    };
    match read_line(alloc, texts.as_slice()) {
        Some(line) => read_asked(alloc, line),
        None => Err(stop_of(words)),
    }
}

/// The texts of the words.
fn texts<'a>(alloc: Global, words: &'a [Text]) -> Result<Vec<&'a str>, AllocError>
    ensures { IfOk result (λ texts. map (λ w. w.now) texts.items ≡ words.entry.now) }
{
    let mut texts = Vec::new(alloc);
    for word in words {
        texts.push(word.as_str())?;
    }
    Ok(texts)
}

/// Why words that were not read are refused: memory was wanted only for those that are in form.
fn stop_of(words: &[Text]) -> WordStop
    ensures { Stops result (task_of words.now) }
{
    match words {
        [verb, _] if verb.as_str() == "run" => WordStop::Memory,
        [verb, seed, count]
            if verb.as_str() == "soak" && are_in_range(seed.as_str(), count.as_str()) => {
            WordStop::Memory
        }
        _ => WordStop::Fault(UseFault::Words),
    }
}

/// Whether a seed and a number of commands are in their ranges.
fn are_in_range(seed: &str, count: &str) -> bool
    ensures { result ≡ (is_some (number_of 0 MOST_SEED seed.now) && is_some (number_of 1 MOST_COMMANDS count.now)) }
{
    number_from(seed, 0, u64::MAX).is_some() && number_from(count, 1, MOST_SOAKED).is_some()
}

/// Reads what a line asks for.
fn read_asked(alloc: Global, line: Line<'_>) -> Result<Task, WordStop>
    requires { are_all_short (words_of_line line) ≡ true }
    ensures ok { IfOk result (λ task. task_of (words_of_line line.entry) ≡ Ok task) }
    ensures stop { IfErr result (λ e. Stops e (task_of (words_of_line line.entry))) }
{
    match line {
        Line::Run { uri } => read_run(alloc, uri),
        Line::Soak { seed, count } => read_soak(seed, count),
    }
}

/// Reads the connection string of a run.
fn read_run(alloc: Global, uri: &str) -> Result<Task, WordStop>
    requires { length uri.now ≤ MOST_WORD }
    ensures ok { IfOk result (λ task. run_of (settings_of uri.now) ≡ Ok task) }
    ensures stop { IfErr result (λ e. Stops e (run_of (settings_of uri.now))) }
{
    match conn_uri::parse(alloc, uri) {
        Ok(settings) => Ok(Task::Run { settings }),
        Err(UriFault::Memory) => Err(WordStop::Memory),
        Err(fault) => Err(WordStop::Fault(UseFault::Uri(fault))),
    }
}

/// Reads the seed and the number of commands of a soak.
fn read_soak(seed: &str, count: &str) -> Result<Task, WordStop>
    ensures ok { IfOk result (λ task. soak_of (number_of 0 MOST_SEED seed.now) (number_of 1 MOST_COMMANDS count.now) ≡ Ok task) }
    ensures stop { IfErr result (λ e. Stops e (soak_of (number_of 0 MOST_SEED seed.now) (number_of 1 MOST_COMMANDS count.now))) }
{
    let Some(seed) = number_from(seed, 0, u64::MAX) else {
        return Err(WordStop::Fault(UseFault::Words));
    };
    let Some(count) = number_from(count, 1, MOST_SOAKED) else {
        return Err(WordStop::Fault(UseFault::Words));
    };
    Ok(Task::Soak {
        seed,
        count: count as u32,
    })
}

/// The place of the first word that begins with a dash.
fn dash_in(words: &[Text]) -> Option<usize>
    ensures { result ≡ first_dash words.now }
{
    words.iter().position(|word| has_dash(word.as_str()))
}

/// Whether the word begins with a dash.
fn has_dash(word: &str) -> bool
    ensures { result ≡ begins_with_dash word.now }
{
    match word.as_bytes().first() {
        Some(b) => *b == b'-',
        None => false,
    }
}

/// Whether no word is too long.
fn are_short(words: &[Text]) -> bool
    ensures { result ≡ are_all_short words.now }
{
    words.iter().all(|word| is_short(word.as_str()))
}

/// Whether the word is not too long.
fn is_short(word: &str) -> bool
    ensures { result ≡ is_short_word word.now }
{
    word.len() <= LONGEST_WORD
}
