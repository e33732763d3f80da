//! Escapes of a connection string (Connection String, Key Value Pairs).
ghost use Rattle.std.specs.Prelude.{◌≡◌, ◌≢◌, ◌≤◌, ◌+◌, Err, IfSome, IsUtf8, None, Some, if◌then◌else◌, length};
ghost use Rattle.conn_uri.specs.Escapes.{begins_hex as begins_two_digits, behind_first, capped, cut_from, decoded, earlier as earlier_of, source};
ghost use Rattle.std.specs.Char.{is_digit};
ghost use Rattle.std.specs.Str.{is_utf8};
ghost use Rattle.std.specs.Str.Lossy.{utf8_valid_len};
ghost use Rattle.conn_uri.specs.Inside.{part_of};
ghost use Rattle.conn_uri.specs.declared.fault.UriFault.{UriFault};

use crate::UriFault;
use crate::piece::Piece;
use bson_doc::Text;
use percent_encoding::percent_decode_str;
use std::alloc::Global;
use std::str;

/// The text of a piece without its escapes, or the first of them that is at fault.
pub(crate) fn decode(alloc: Global, piece: Piece<'_>) -> Result<Text, UriFault>
    ensures { result ≢ Err UriFault.Memory → result ≡ decoded (part_of piece.entry) }
{
    let mut bytes = Vec::new(alloc);
    percent_decode_str(piece.text).append_to(&mut bytes)?;
    let cut = first_cut(piece.text.as_bytes());
    let broken = first_broken(bytes.as_slice(), piece.text.as_bytes());
    match first_of(cut, broken) {
        Some(place) => Err(fault_at(piece, place)),
        None => Ok(text_of(bytes)),
    }
}

/// The escape at that place of the piece is at fault.
fn fault_at(piece: Piece<'_>, place: usize) -> UriFault
    ensures { result ≡ UriFault.Escape (capped (piece.entry.at + place)) }
{
    let at = piece.at.saturating_add(place).min(u32::MAX as usize) as u32;
    UriFault::Escape { at }
}

/// The text of bytes that are UTF-8.
fn text_of(bytes: Vec<u8>) -> Text
    requires { IsUtf8 bytes.items }
    ensures { result ≡ bytes.items }
{
    match String::from_utf8(bytes) {
        Ok(text) => Text::from_string(text),
        Err(_) => unreachable!(),
    }
}

/// The earlier of two places, where there are any.
fn first_of(cut: Option<usize>, broken: Option<usize>) -> Option<usize>
    ensures { result ≡ earlier_of cut broken }
{
    match (cut, broken) {
        (Some(cut), Some(broken)) => Some(cut.min(broken)),
        (Some(cut), None) => Some(cut),
        (None, broken) => broken,
    }
}

/// Where the first bytes stand that are no UTF-8 after decoding.
fn first_broken(bytes: &[u8], text: &[u8]) -> Option<usize>
    ensures { result ≡ (if is_utf8 bytes.now then None else Some (source (utf8_valid_len bytes.now) text.now)) }
{
    match str::from_utf8(bytes) {
        Ok(_) => None,
        Err(error) => Some(source_of(error.valid_up_to(), text)),
    }
}

/// Where the first `%` stands that begins no escape.
fn first_cut(text: &[u8]) -> Option<usize>
    ensures place { result ≡ cut_from 0 text.now }
    ensures within { IfSome result (λ place. place ≤ length text.now) }
{
    let mut rest = text;
    let mut place = 0;
    while let [first, behind @ ..] = rest {
        if *first == b'%' && !begins_hex(behind) {
            return Some(place);
        }
        place += 1;
        rest = behind;
    }
    None
}

/// Whether the text begins with two hexadecimal digits.
fn begins_hex(text: &[u8]) -> bool
    ensures { result ≡ begins_two_digits text.now }
{
    match text {
        [high, low, ..] => is_hex(*high) && is_hex(*low),
        _ => false,
    }
}

fn is_hex(byte: u8) -> bool
    ensures { result ≡ is_digit byte 16 }
{
    char::from(byte).is_digit(16)
}

/// Where the decoded byte of that number comes from.
fn source_of(number: usize, text: &[u8]) -> usize
    ensures place { result ≡ source number text.now }
    ensures within { result ≤ length text.now }
{
    let mut rest = text;
    for _ in 0..number {
        rest = past_first(rest);
    }
    text.len() - rest.len()
}

/// What stands behind the first byte or escape.
fn past_first(text: &[u8]) -> &[u8]
    ensures rest { result.now ≡ behind_first text.now }
    ensures shorter { length result.now ≤ length text.now }
{
    match text {
        [b'%', high, low, behind @ ..] if is_hex(*high) && is_hex(*low) => behind,
        [_, behind @ ..] => behind,
        [] => text,
    }
}
