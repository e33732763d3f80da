//! A connection string is cut into pieces (Connection String, General Syntax).
ghost use Rattle.std.specs.Prelude.{◌≡◌, ◌+◌, ◌<◌, ◌≤◌, ◌↔◌, IfOk, IfSome, IsTrue, is_some, length, map};
ghost use Rattle.host_name.specs.Grammar.{is_in, before, behind};
ghost use Rattle.conn_uri.specs.Grammar.{behind_part, before_part, pieces as pieces_between};
ghost use Rattle.conn_uri.specs.Inside.{part_of};

use crate::Memory;
use crate::piece::Piece;
use std::alloc::Global;

/// What stands before the first such character, all where there is none, and what stands behind it.
pub(crate) fn halves<'a>(whole: Piece<'a>, mark: char) -> (Piece<'a>, Piece<'a>)
    requires { mark < 128 }
    ensures front { part_of result.0 ≡ before_part mark (part_of whole.entry) }
    ensures back { part_of result.1 ≡ behind_part mark (part_of whole.entry) }
{
    let (front, back) = split_at_first(whole.text, mark);
    let at = whole.at + (whole.text.len() - back.len());
    (
        Piece {
            at: whole.at,
            text: front,
        },
        Piece { at, text: back },
    )
}

/// The pieces between such characters, one more than there are of them.
pub(crate) fn pieces<'a>(
    alloc: Global,
    whole: Piece<'a>,
    mark: char,
) -> Result<Vec<Piece<'a>>, Memory>
    requires { mark < 128 }
    ensures { IfOk result (λ ps. map part_of ps.items ≡ pieces_between mark (part_of whole.entry)) }
{
    let mut pieces = Vec::new(alloc);
    let mut rest = whole;
    while has(rest.text, mark) {
        let (front, back) = halves(rest, mark);
        pieces.push(front)?;
        rest = back;
    }
    pieces.push(rest)?;
    Ok(pieces)
}

/// The parts before and behind the first such character.
fn split_at_first(text: &str, mark: char) -> (&str, &str)
    requires { mark < 128 }
    ensures front { result.0.now ≡ before mark text.now }
    ensures back { result.1.now ≡ behind mark text.now }
    ensures shorter { length result.1.now ≤ length text.now }
    ensures front_shorter { length result.0.now ≤ length text.now }
{
    match text.split_once(mark) {
        Some(parts) => parts,
        None => (text, ""),
    }
}

/// Whether the text has such a character.
pub(crate) fn has(text: &str, mark: char) -> bool
    requires { mark < 128 }
    ensures { result ≡ is_in mark text.now }
{
    text.split_once(mark).is_some()
}
