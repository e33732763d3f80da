//! The texts of a connection string, without escapes (Connection String, Key Value Pairs).
ghost use Rattle.std.specs.Prelude.{◌≡◌, ◌≢◌, Err, IfOk};
ghost use Rattle.conn_uri.specs.Each.{read_each};
ghost use Rattle.conn_uri.specs.Escapes.{decoded as decoded_of};
ghost use Rattle.conn_uri.specs.Grammar.{pieces as pieces_between};
ghost use Rattle.conn_uri.specs.Inside.{part_of};
ghost use Rattle.conn_uri.specs.Reading.{db_of, said_in};
ghost use Rattle.conn_uri.specs.declared.fault.UriFault.{UriFault};

use crate::cutting::{halves, pieces};
use crate::escapes::decode;
use crate::piece::Piece;
use crate::said::Said;
use crate::{Memory, UriFault};
use bson_doc::{Rows, Text};
use std::alloc::Global;

/// The texts of the hosts, up to the first escape at fault.
pub(crate) fn decode_hosts(alloc: Global, whole: Piece<'_>) -> Result<Rows<Text>, UriFault>
    ensures { result ≢ Err UriFault.Memory → result ≡ read_each decoded_of (pieces_between 44 (part_of whole.entry)) }
{
    let pieces = pieces(alloc, whole, ',')?;
    decode_each(alloc, pieces.as_slice())
}

/// What the options say, up to the first escape at fault.
pub(crate) fn say_options(alloc: Global, whole: Piece<'_>) -> Result<Rows<Option<Said>>, UriFault>
    ensures { result ≢ Err UriFault.Memory → result ≡ read_each said_in (pieces_between 38 (part_of whole.entry)) }
{
    let pieces = pieces(alloc, whole, '&')?;
    say_each(alloc, pieces.as_slice())
}

/// The text of each piece, up to the first escape at fault.
fn decode_each(alloc: Global, pieces: &[Piece<'_>]) -> Result<Rows<Text>, UriFault>
    ensures { result ≢ Err UriFault.Memory → result ≡ read_each (λ p. decoded_of (part_of p)) pieces.now }
{
    let mut texts = Rows::new(alloc);
    for piece in pieces {
        match decode(alloc, *piece) {
            Ok(text) => texts.push(text)?,
            Err(fault) => return Err(fault),
        }
    }
    Ok(texts)
}

/// What each piece of the options says, up to the first escape at fault.
fn say_each(alloc: Global, pieces: &[Piece<'_>]) -> Result<Rows<Option<Said>>, UriFault>
    ensures { result ≢ Err UriFault.Memory → result ≡ read_each (λ p. said_in (part_of p)) pieces.now }
{
    let mut options = Rows::new(alloc);
    for piece in pieces {
        match say(alloc, *piece) {
            Ok(said) => options.push(said)?,
            Err(fault) => return Err(fault),
        }
    }
    Ok(options)
}

/// What a piece of the options says; nothing where it is empty.
fn say(alloc: Global, piece: Piece<'_>) -> Result<Option<Said>, UriFault>
    ensures { result ≢ Err UriFault.Memory → result ≡ said_in (part_of piece.entry) }
{
    if piece.text.is_empty() {
        return Ok(None);
    }
    let (name, value) = halves(piece, '=');
    let value = decode(alloc, value)?;
    let name = Text::from_string(name.text.to_ascii_lowercase(alloc)?);
    Ok(Some(Said { name, value }))
}

/// The database; `test` where the text names none.
pub(crate) fn database(alloc: Global, text: Text) -> Result<Text, Memory>
    ensures { IfOk result (λ db. db ≡ db_of text) }
{
    if text.len() == 0 {
        return Text::take(alloc, "test");
    }
    Ok(text)
}
