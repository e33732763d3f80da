ghost use Rattle.std.specs.Prelude.{◌≡◌, ◌≢◌, ◌≤◌, ◌<◌, Err, IfErr, IfOk, Ok, length};
ghost use Rattle.std.specs.List.{list_any};
ghost use Rattle.host_name.specs.Grammar.{is_in};
ghost use Rattle.conn_uri.specs.Inside.{IsWithin};
ghost use Rattle.conn_uri.specs.Configurations.{AreSeeds};
ghost use Rattle.conn_uri.specs.Grammar.{name_part, pieces as pieces_between};
ghost use Rattle.conn_uri.specs.Inside.{part_of};
ghost use Rattle.conn_uri.specs.Reading.{agreed, body_in, decoded_in, has_credentials, none_left, settings_in, settings_of};
ghost use Rattle.conn_uri.specs.declared.fault.UriFault.{UriFault};

use crate::choosing::choose;
use crate::chosen::Chosen;
use crate::cutting::{halves, has, pieces};
use crate::decoded::Decoded;
use crate::decoding::{database, decode_hosts, say_options};
use crate::escapes::decode;
use crate::piece::Piece;
use crate::seeds::{has_path, seeds};
use crate::{Clash, Memory, Settings, UriFault};
use bson_doc::{Rows, Text};
use host_name::Host;
use read_pref::ReadPref;
use std::alloc::Global;

/// The scheme.
const SCHEME: &str = "mongodb://";

/// Reads a connection string, which has at most 16,777,216 bytes: the settings that it gives, or its first fault in the
/// order of [`UriFault`] (Connection String; URI Options).
///
/// An option of an unknown name, and one whose value does not read, is ignored, and its name stands in
/// [`Settings::warnings`]. Text before an `@` is never read: nothing that this call answers holds any part of it.
pub fn parse(alloc: Global, text: &str) -> Result<Settings, UriFault>
    requires { length text.now ≤ 16777216 }
    ensures { result ≢ Err UriFault.Memory → result ≡ settings_of text.now }
{
    let body = match body(alloc, text) {
        Ok(body) => body,
        Err(fault) => return Err(fault),
    };
    match decode_body(alloc, body) {
        Ok(decoded) => settle(alloc, decoded),
        Err(fault) => Err(fault),
    }
}

/// What stands behind the scheme, without credentials.
fn body(alloc: Global, text: &str) -> Result<Piece<'_>, UriFault>
    requires { length text.now ≤ 16777216 }
    ensures short { IfOk result (λ piece. length piece.text.now < length text.now) }
    ensures found { IfOk result (λ piece. body_in text.now ≡ Ok (part_of piece)) }
    ensures fault { IfErr result (λ e. e ≢ UriFault.Memory → body_in text.now ≡ Err e) }
{
    let Some(behind) = text.strip_prefix(SCHEME) else {
        return Err(UriFault::Scheme);
    };
    let body = Piece {
        at: SCHEME.len(),
        text: behind,
    };
    if holds_credentials(alloc, body)? {
        return Err(UriFault::Credentials);
    }
    Ok(body)
}

/// Whether an `@` stands ahead of the options or in an option's name.
fn holds_credentials(alloc: Global, body: Piece<'_>) -> Result<bool, Memory>
    ensures { IfOk result (λ holds. holds ≡ has_credentials (part_of body.entry)) }
{
    let (ahead, options) = halves(body, '?');
    if has(ahead.text, '@') {
        return Ok(true);
    }
    has_marked_option(alloc, options)
}

/// Whether an `@` stands in the name of an option between the '&'.
fn has_marked_option(alloc: Global, options: Piece<'_>) -> Result<bool, Memory>
    ensures { IfOk result (λ marked. marked ≡ list_any (λ p. is_in 64 (name_part p).text) (pieces_between 38 (part_of options.entry))) }
{
    let options = pieces(alloc, options, '&')?;
    Ok(has_marked_name(options.as_slice()))
}

/// Whether an `@` stands in an option's name.
fn has_marked_name(options: &[Piece<'_>]) -> bool
    ensures { result ≡ list_any (λ p. is_in 64 (name_part (part_of p)).text) options.now }
{
    for option in options {
        if is_marked(*option) {
            return true;
        }
    }
    false
}

/// Whether an `@` stands in the option's name.
fn is_marked(option: Piece<'_>) -> bool
    ensures { result ≡ is_in 64 (name_part (part_of option.entry)).text }
{
    let (name, _) = halves(option, '=');
    has(name.text, '@')
}

/// The texts of hosts, database and options, without escapes.
fn decode_body(alloc: Global, body: Piece<'_>) -> Result<Decoded, UriFault>
    ensures { result ≢ Err UriFault.Memory → result ≡ decoded_in (part_of body.entry) }
{
    let (ahead, options) = halves(body, '?');
    let (hosts, db) = halves(ahead, '/');
    let hosts = match decode_hosts(alloc, hosts) {
        Ok(hosts) => hosts,
        Err(fault) => return Err(fault),
    };
    let db = match decode(alloc, db) {
        Ok(db) => db,
        Err(fault) => return Err(fault),
    };
    let options = match say_options(alloc, options) {
        Ok(options) => options,
        Err(fault) => return Err(fault),
    };
    let db = database(alloc, db)?;
    Ok(Decoded { hosts, db, options })
}

/// The settings that the texts give.
fn settle(alloc: Global, decoded: Decoded) -> Result<Settings, UriFault>
    requires some { 1 ≤ length decoded.hosts }
    requires most { length decoded.hosts ≤ 16777216 }
    ensures { result ≢ Err UriFault.Memory → result ≡ settings_in decoded }
{
    let Decoded { hosts, db, options } = decoded;
    let seeds = match seeds(alloc, hosts.as_slice()) {
        Ok(seeds) => seeds,
        Err(fault) => return Err(fault),
    };
    let chosen = choose(alloc, options.as_slice())?;
    let chosen = match refuse_left(alloc, hosts.as_slice(), chosen) {
        Ok(chosen) => chosen,
        Err(fault) => return Err(fault),
    };
    agree(seeds, db, chosen)
}

/// What was chosen, unless it asks for what is left out.
fn refuse_left(alloc: Global, hosts: &[Text], chosen: Chosen) -> Result<Chosen, UriFault>
    ensures { result ≢ Err UriFault.Memory → result ≡ none_left hosts.now chosen }
{
    if has_path(hosts) {
        let name = Text::take(alloc, "unix")?;
        return Err(UriFault::Left { name });
    }
    match chosen.left.as_slice().first() {
        Some(name) => {
            let name = name.copy(alloc)?;
            Err(UriFault::Left { name })
        }
        None => Ok(chosen),
    }
}

/// The settings, unless two things do not go together.
fn agree(hosts: Rows<Host>, db: Text, chosen: Chosen) -> Result<Settings, UriFault>
    requires seeds { AreSeeds hosts }
    requires within { IsWithin chosen }
    ensures { result ≡ agreed hosts db chosen }
{
    if chosen.direct && hosts.len() > 1 {
        return Err(UriFault::Clash(Clash::DirectMany));
    }
    let read = match ReadPref::new(chosen.mode, chosen.tag_sets) {
        Ok(read) => read,
        Err(_) => return Err(UriFault::Clash(Clash::TagsOnPrimary)),
    };
    Ok(Settings {
        hosts,
        set_name: chosen.set_name,
        direct: chosen.direct,
        db,
        read,
        retry_writes: chosen.retry_writes,
        connect_ms: chosen.connect_ms,
        socket_ms: chosen.socket_ms,
        select_ms: chosen.select_ms,
        beat_ms: chosen.beat_ms,
        threshold_ms: chosen.threshold_ms,
        wait_ms: chosen.wait_ms,
        idle_ms: chosen.idle_ms,
        max_pool: chosen.max_pool,
        max_connecting: chosen.max_connecting,
        warnings: chosen.warnings,
    })
}
