ghost use Rattle.std.specs.Prelude.{◌≡◌, ◌≤◌, ◌++◌, IfOk, OnOk, length, string_bytes};
ghost use Rattle.shell_top.specs.Report.{ignored_lines, is_ok_tally, line_of, lines, ok_count, report_by};

use bson_doc::{Memory, Rows, Text};
use host_name::Host;
use report_text::{ignored_line, last_line, line};
use std::alloc::Global;
use trail_tally::Tally;

/// The report of a run: a line for each option that was ignored, one for each command, and a last line that counts them.
pub fn report_of(
    alloc: Global,
    ignored: &[Text],
    names: &Rows<Host>,
    tallies: &[Tally],
) -> Result<String, Memory>
    requires bounded { length tallies.now ≤ 100000 }
    ensures { IfOk result (λ text. string_bytes text ≡ report_by ignored.now names.now tallies.now) }
{
    let mut text = String::new(alloc);
    push_ignored(alloc, &mut text, ignored)?;
    push_lines(alloc, &mut text, names, tallies)?;
    let last = last_line(alloc, tallies.len() as u32, count_ok(tallies))?;
    text.push_str(last.as_str())?;
    Ok(text)
}

/// The options that were ignored.
fn push_ignored(alloc: Global, text: &mut String, ignored: &[Text]) -> Result<(), Memory>
    ensures { OnOk result (string_bytes text.new ≡ string_bytes text.old ++ ignored_lines ignored.now) }
{
    'ignored: for name in ignored {
        let line = ignored_line(alloc, name.as_str())?;
        text.push_str(line.as_str())?;
    }
    Ok(())
}

/// The commands' lines.
fn push_lines(
    alloc: Global,
    text: &mut String,
    names: &Rows<Host>,
    tallies: &[Tally],
) -> Result<(), Memory>
    requires bounded { length tallies.now ≤ 100000 }
    ensures { OnOk result (string_bytes text.new ≡ string_bytes text.old ++ lines names.now 1 tallies.now) }
{
    'lines: for (place, tally) in tallies.iter().enumerate() {
        let line = line_of(alloc, place as u32 + 1, tally, names)?;
        text.push_str(line.as_str())?;
    }
    Ok(())
}

/// The line of a command; none where it was not answered.
fn line_of(alloc: Global, number: u32, tally: &Tally, names: &Rows<Host>) -> Result<Text, Memory>
    ensures { IfOk result (λ text. text ≡ line_of names.now number tally.now) }
{
    match &tally.answer {
        Some(outcome) => line(alloc, number, outcome, tally.attempts, names),
        None => Ok(Text::new(alloc)),
    }
}

/// How many of the lines are ok.
pub fn count_ok(tallies: &[Tally]) -> u32
    requires { length tallies.now ≤ 100000 }
    ensures { result ≡ ok_count tallies.now }
{
    tallies.iter().filter(|tally| is_ok(tally)).count() as u32
}

/// Whether the command was answered as carried out.
pub fn is_ok(tally: &Tally) -> bool
    ensures { result ≡ is_ok_tally tally.now }
{
    match &tally.answer {
        Some(outcome) => outcome.is_ok(),
        None => false,
    }
}
