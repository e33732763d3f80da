//! What an option's value says, by its kind (URI Options; Connection String, Key Value Pairs).
ghost use Rattle.std.specs.Prelude.{◌≡◌, ◌≤◌, ◌<◌, ◌^◌, ◌==◌, IfOk, IfSome, None, is_some, length, map, position};
ghost use Rattle.std.specs.List.{list_all};
ghost use Rattle.std.specs.Char.{is_ascii_digit};
ghost use Rattle.conn_uri.specs.Configurations.{MOST};
ghost use Rattle.conn_uri.specs.Each.{each_or_none};
ghost use Rattle.conn_uri.specs.Grammar.{pieces as pieces_between, Part};
ghost use Rattle.conn_uri.specs.Inside.{part_of};
ghost use Rattle.conn_uri.specs.Values.{is_whole, limit as limit_of, tag_in as tag_of, tags_in as tags_of, truth as truth_of, whole_from};

use crate::Memory;
use crate::cutting::{has, pieces};
use crate::piece::Piece;
use bson_doc::{Name, NameFault, Rows, Text};
use read_pref::{Tag, TagSet};
use std::alloc::{AllocError, Global};

/// The greatest number.
const GREATEST: u64 = 2_147_483_647;

/// `true` or `false`.
pub(crate) fn truth(value: &str) -> Option<bool>
    ensures { result ≡ truth_of value.now }
{
    match value {
        "true" => Some(true),
        "false" => Some(false),
        _ => None,
    }
}

/// A whole number from `least` to 2,147,483,647: decimal digits without a sign and without a leading zero.
pub(crate) fn whole(value: &str, least: u64) -> Option<u64>
    ensures value { result ≡ whole_from least value.now }
    ensures least { IfSome result (λ n. least ≤ n) }
    ensures most { IfSome result (λ n. n ≤ MOST) }
{
    if !is_digits(value) {
        return None;
    }
    let Ok(number) = value.parse::<u64>() else {
        return None;
    };
    if least <= number && number <= GREATEST {
        Some(number)
    } else {
        None
    }
}

/// Whether the text is decimal digits without a leading zero.
fn is_digits(text: &str) -> bool
    ensures { result ≡ is_whole text.now }
{
    let digits = text.as_bytes();
    all_digits(digits) && !digits.is_empty() && (digits.len() == 1 || digits[0] != b'0')
}

fn all_digits(digits: &[u8]) -> bool
    ensures { result ≡ list_all is_ascii_digit digits.now }
{
    digits.iter().all(|b| b.is_ascii_digit())
}

/// A whole number, of which 0 stands for no limit and is 2,147,483,647.
pub(crate) fn limit(value: &str) -> Option<u64>
    ensures value { result ≡ limit_of value.now }
    ensures least { IfSome result (λ n. 1 ≤ n) }
    ensures most { IfSome result (λ n. n ≤ MOST) }
{
    match whole(value, 0) {
        Some(0) => Some(GREATEST),
        other => other,
    }
}

/// Tags joined by commas, none in an empty text.
pub(crate) fn tags(alloc: Global, value: &str) -> Result<Option<TagSet>, Memory>
    ensures { IfOk result (λ tags. tags ≡ tags_of value.now) }
{
    if value.is_empty() {
        return Ok(Some(Rows::new(alloc)));
    }
    tags_between(alloc, Piece { at: 0, text: value })
}

/// The tags between the commas.
fn tags_between(alloc: Global, whole: Piece<'_>) -> Result<Option<TagSet>, Memory>
    ensures { IfOk result (λ tags. tags ≡ each_or_none (λ (p : Part). tag_of p.text) (pieces_between 44 (part_of whole.entry))) }
{
    let pieces = pieces(alloc, whole, ',')?;
    let tags = tags_among(alloc, pieces.as_slice())?;
    Ok(tags)
}

/// The tags that the pieces spell, unless some piece spells none.
fn tags_among(alloc: Global, pieces: &[Piece<'_>]) -> Result<Option<TagSet>, Memory>
    ensures { IfOk result (λ tags. tags ≡ each_or_none (λ p. tag_of (part_of p).text) pieces.now) }
{
    let mut tags = Rows::new(alloc);
    for piece in pieces {
        match tag(alloc, piece.text)? {
            Some(tag) => tags.push(tag)?,
            None => return Ok(None),
        }
    }
    Ok(Some(tags))
}

/// The tag that a text spells, `name:value`.
fn tag(alloc: Global, text: &str) -> Result<Option<Tag>, Memory>
    ensures { IfOk result (λ tag. tag ≡ tag_of text.now) }
{
    let Some((name, value)) = text.split_once(':') else {
        return Ok(None);
    };
    match Name::from_str(alloc, name) {
        Ok(name) => Ok(Some(Tag {
            name,
            value: Text::take(alloc, value)?,
        })),
        Err(NameFault::HasNul { .. }) => Ok(None),
        Err(NameFault::Memory) => Err(AllocError),
    }
}
