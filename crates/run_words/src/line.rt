//! The command line, read with `clap`.
ghost use Rattle.std.specs.Prelude.{◌≡◌, IfOk, IfSome, None, false, map};
ghost use Rattle.clap.specs.Words.{app_of, subcommand_rows_of};
ghost use Rattle.clap.specs.declared.builder.command.Command.TheViews.{out-Command};
ghost use Rattle.run_words.specs.Line.{bare_app, line_app, run_app, soak_app, words_of as words_of_line, words_read};
ghost use Rattle.run_words.specs.Words.{dash_in as first_dash};

use clap::{Arg, ArgMatches, Command};
use std::alloc::{AllocError, Global};

/// A line of one of the two forms.
#[derive(Clone, Copy, Debug)]
pub(crate) enum Line<'a> {
    /// `run URI`.
    Run { uri: &'a str },
    /// `soak SEED N`.
    Soak { seed: &'a str, count: &'a str },
}

/// The line that the words are; none where `clap` refuses them or has no memory. No word begins with a dash.
pub(crate) fn read_line<'a>(alloc: Global, words: &'a [&'a str]) -> Option<Line<'a>>
    requires { first_dash (map (λ w. w.now) words.now) ≡ None }
    ensures { IfSome result (λ line. words_of_line line ≡ map (λ w. w.now) words.entry.now) }
{
    let Ok(command) = line_command(alloc) else {
        return None;
    };
    match command.try_get_matches_from(words) {
        Ok(matches) => line_in(&matches),
        Err(_) => None,
    }
}

/// The line that was read.
fn line_in<'a>(matches: &ArgMatches<'a>) -> Option<Line<'a>>
    ensures { IfSome result (λ line. words_of_line line ≡ words_read (subcommand_rows_of matches.now)) }
{
    let (name, values) = matches.subcommand()?;
    if name == "run" {
        let uri = values.get_str("URI")?;
        return Some(Line::Run { uri });
    }
    let seed = values.get_str("SEED")?;
    let count = values.get_str("N")?;
    Some(Line::Soak { seed, count })
}

/// The command line: `run URI` or `soak SEED N`.
fn line_command<'a>(alloc: Global) -> Result<Command<'a>, AllocError>
    ensures { IfOk result (λ c. app_of c ≡ line_app) }
{
    let run = run_command(alloc)?;
    let soak = soak_command(alloc)?;
    bare_command(alloc).subcommand(run)?.subcommand(soak)
}

/// A command line that asks for a subcommand, without flags and without `help`.
fn bare_command<'a>(alloc: Global) -> Command<'a>
    ensures { app_of result ≡ bare_app }
{
    Command::new(alloc, "mdc")
        .no_binary_name(true)
        .disable_help_flag(true)
        .disable_help_subcommand(true)
        .disable_version_flag(true)
        .subcommand_required(true)
}

/// `run URI`.
fn run_command<'a>(alloc: Global) -> Result<Command<'a>, AllocError>
    ensures app { IfOk result (λ c. app_of c ≡ run_app) }
    ensures local { IfOk result (λ c. (out-Command c).has_globals ≡ false) }
{
    let uri = Arg::new(alloc, "URI").required(true);
    Command::new(alloc, "run").arg(uri)
}

/// `soak SEED N`.
fn soak_command<'a>(alloc: Global) -> Result<Command<'a>, AllocError>
    ensures app { IfOk result (λ c. app_of c ≡ soak_app) }
    ensures local { IfOk result (λ c. (out-Command c).has_globals ≡ false) }
{
    let seed = Arg::new(alloc, "SEED").required(true);
    let count = Arg::new(alloc, "N").required(true);
    Command::new(alloc, "soak").arg(seed)?.arg(count)
}
