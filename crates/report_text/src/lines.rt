ghost use Rattle.std.specs.Prelude.{◌≡◌, ◌++◌, IfOk, codes, string_bytes};
ghost use Rattle.std.specs.Fmt.{signed_decimal};
ghost use Rattle.report_text.specs.Lines.{host_text, ignored_line, last_line, line, said};

use bson_doc::{Memory, Rows, Text};
use host_name::Host;
use std::alloc::Global;
use write_retry::Outcome;

/// The line of an option that was ignored, by its name.
pub fn ignored_line(alloc: Global, name: &str) -> Result<Text, Memory>
    ensures text { IfOk result (λ text. text ≡ ignored_line name.now) }
{
    let line = format!(in alloc; "ignored {name}\n")?;
    Text::take(alloc, line.as_str())
}

/// A command's line: its number, counted from 1, its outcome and how many attempts it took. A host that the outcome names
/// is a place of `names`; it prints as `name:port`, and as nothing where no host has that place.
pub fn line(
    alloc: Global,
    number: u32,
    outcome: &Outcome,
    attempts: u64,
    names: &Rows<Host>,
) -> Result<Text, Memory>
    ensures text { IfOk result (λ text. text ≡ line names.now number outcome.now attempts) }
{
    let said = said(alloc, names.as_slice(), outcome)?;
    let line = format!(in alloc; "{number}: {said} attempts={attempts}\n")?;
    Text::take(alloc, line.as_str())
}

/// The last line: how many commands there are, and how many of them were carried out.
pub fn last_line(alloc: Global, count: u32, ok: u32) -> Result<Text, Memory>
    ensures text { IfOk result (λ text. text ≡ last_line count ok) }
{
    let line = format!(in alloc; "done {count} ok {ok}\n")?;
    Text::take(alloc, line.as_str())
}

/// The outcome in words.
fn said(alloc: Global, names: &[Host], outcome: &Outcome) -> Result<String, Memory>
    ensures { IfOk result (λ text. string_bytes text ≡ said names.now outcome.now) }
{
    match outcome {
        Outcome::Ok { n, modified } => format!(in alloc; "ok n={n} modified={modified}"),
        Outcome::Error { code } => format!(in alloc; "error {code}"),
        Outcome::WriteErrors { count, first } => format!(in alloc;
            "write-errors {count} first={first}"
        ),
        Outcome::Concern { code } => format!(in alloc; "concern {code}"),
        Outcome::Network => String::from_str(alloc, "network"),
        Outcome::Late => String::from_str(alloc, "late"),
        Outcome::BadReply { at } => format!(in alloc; "bad-reply {at}"),
        Outcome::NoServer => String::from_str(alloc, "no-server"),
        Outcome::Incompatible { host, min, max } => incompatible(
            alloc,
            host_text(alloc, names, *host)?,
            *min,
            *max,
        ),
        Outcome::PoolTimeout => String::from_str(alloc, "pool-timeout"),
        Outcome::PoolCleared { generation } => format!(in alloc; "pool-cleared {generation}"),
        Outcome::PoolClosed { host } => pool_closed(alloc, host_text(alloc, names, *host)?),
        Outcome::TooLarge { size, most } => format!(in alloc; "too-large {size} {most}"),
    }
}

/// The host at that place, as `name:port`.
fn host_text(alloc: Global, names: &[Host], place: u32) -> Result<String, Memory>
    ensures { IfOk result (λ text. string_bytes text ≡ host_text names.now place) }
{
    match names.get(place as usize) {
        Some(host) => format!(in alloc; "{host}"),
        None => Ok(String::new(alloc)),
    }
}

/// A server whose wire versions are others than this client's.
fn incompatible(alloc: Global, host: String, min: i32, max: i32) -> Result<String, Memory>
    ensures { IfOk result (λ text. string_bytes text ≡ codes "incompatible " ++ (string_bytes host ++ (codes " " ++ (signed_decimal min ++ (codes " " ++ signed_decimal max))))) }
{
    format!(in alloc; "incompatible {host} {min} {max}")
}

/// A server whose pool was closed.
fn pool_closed(alloc: Global, host: String) -> Result<String, Memory>
    ensures { IfOk result (λ text. string_bytes text ≡ codes "pool-closed " ++ string_bytes host) }
{
    format!(in alloc; "pool-closed {host}")
}
