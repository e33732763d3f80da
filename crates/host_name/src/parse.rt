ghost use Rattle.std.specs.Prelude.{◌≡◌, ◌≢◌, ◌<◌, ◌≤◌, ◌++◌, ◌∷◌, [], false, IsTrue, IfOk, IfSome, is_some, Some, string_bytes};
ghost use Rattle.std.specs.List.{list_all};
ghost use Rattle.std.specs.Option.{option_map};
ghost use Rattle.std.specs.Char.{is_ascii_digit};
ghost use Rattle.std.specs.Str.{str_to_ascii_lowercase};
ghost use Rattle.std.specs.Str.Parse.{digits_value};
ghost use Rattle.host_name.specs.Grammar.{is_in, before, behind, begins_otherwise, past_first, is_port};
ghost use Rattle.host_name.specs.Reading.{reading, plain_reading, bracketed_reading, port_of};
ghost use Rattle.host_name.specs.declared.fault.HostFault.{HostFault};

use crate::{Host, HostFault, Memory};
use std::alloc::Global;

/// The port of a host that names none (Connection String, Host Information).
const DEFAULT_PORT: u16 = 27017;

/// The most digits that a port may have.
const MOST_DIGITS: usize = 5;

impl Host {
    /// Reads `name`, `name:port`, `[v6]` or `[v6]:port`, and puts A to Z in lower case.
    ///
    /// The name ends at the first colon outside brackets, and keeps the brackets that it has; an opening one in the
    /// name's middle owes a closing one too, and what stands behind the colon is the port. The port is 27017 where it is
    /// absent. The first fault is told, in the order of [`HostFault`]; `Memory` comes only where the text is a host.
    pub fn parse(alloc: Global, text: &str) -> Result<Host, HostFault>
        ensures read { result ≢ Err HostFault.Memory → result ≡ reading text.now }
        ensures fault { (e : HostFault) → reading text.now ≡ Err e → result ≡ Err e }
    {
        match split_at_first(text, '[') {
            Some((front, rest)) if !is_cut(front) => bracketed(alloc, front, rest),
            _ => plain(alloc, text),
        }
    }
}

/// A host whose name has no bracket: `name` or `name:port`.
fn plain(alloc: Global, text: &str) -> Result<Host, HostFault>
    ensures read { result ≢ Err HostFault.Memory → result ≡ plain_reading text.now }
    ensures fault { (e : HostFault) → plain_reading text.now ≡ Err e → result ≡ Err e }
{
    let (name, digits) = match split_at_first(text, ':') {
        Some((name, digits)) => (name, Some(digits)),
        None => (text, None),
    };
    if name.is_empty() {
        return Err(HostFault::Empty);
    }
    let Some(port) = port_in(digits) else {
        return Err(HostFault::Port);
    };
    match name.to_ascii_lowercase(alloc) {
        Ok(name) => Ok(Host::new(name, port)),
        Err(_) => Err(HostFault::Memory),
    }
}

/// A host whose name has brackets, of what stands ahead of the opening one and what stands behind it.
fn bracketed(alloc: Global, front: &str, rest: &str) -> Result<Host, HostFault>
    ensures read { result ≢ Err HostFault.Memory → result ≡ bracketed_reading front.now rest.now }
    ensures fault { (e : HostFault) → bracketed_reading front.now rest.now ≡ Err e → result ≡ Err e }
{
    let Some((inside, behind)) = split_at_first(rest, ']') else {
        return Err(HostFault::Bracket);
    };
    let digits = past_colon(behind);
    if digits.is_none() && !behind.is_empty() {
        return Err(HostFault::Bracket);
    }
    if inside.is_empty() {
        return Err(HostFault::Empty);
    }
    let Some(port) = port_in(digits) else {
        return Err(HostFault::Port);
    };
    match bracketed_name(alloc, front, inside) {
        Ok(name) => Ok(Host::new(name, port)),
        Err(_) => Err(HostFault::Memory),
    }
}

/// The name with its brackets, A to Z in lower case.
fn bracketed_name(alloc: Global, front: &str, inside: &str) -> Result<String, Memory>
    ensures { IfOk result (λ s. string_bytes s ≡ str_to_ascii_lowercase (front.now ++ 91 ∷ inside.now ++ 93 ∷ [])) }
{
    let mut name = String::from_str(alloc, front)?;
    name.push_str("[")?;
    name.push_str(inside)?;
    name.push_str("]")?;
    name.make_ascii_lowercase();
    Ok(name)
}

/// The number of a port, if its digits are those of one; the default port where there are none.
fn port_in(digits: Option<&str>) -> Option<u16>
    ensures value { result ≡ port_of (option_map (λ d. d.now) digits.entry) }
    ensures at_least_one { IfSome result (λ port. 1 ≤ port) }
{
    match digits {
        None => Some(DEFAULT_PORT),
        Some(digits) => port_number(digits),
    }
}

/// The number that one to five digits spell, from 1 to 65535.
fn port_number(digits: &str) -> Option<u16>
    ensures value { result ≡ port_of (Some digits.now) }
    ensures at_least_one { IfSome result (λ port. 1 ≤ port) }
{
    if digits.len() > MOST_DIGITS || !is_digits(digits) {
        return None;
    }
    match digits.parse::<u16>() {
        Err(_) => None,
        Ok(0) => None,
        Ok(port) => Some(port),
    }
}

/// Whether each byte is a decimal digit.
fn is_digits(text: &str) -> bool
    ensures { result ≡ list_all is_ascii_digit text.now }
{
    text.as_bytes().iter().all(|b| b.is_ascii_digit())
}

/// The parts before and behind the first such character.
fn split_at_first(text: &str, mark: char) -> Option<(&str, &str)>
    requires { mark < 128 }
    ensures found { is_some result ≡ is_in mark text.now }
    ensures parts { IfSome result (λ p. (p.0.now ≡ before mark text.now) × (p.1.now ≡ behind mark text.now)) }
{
    text.split_once(mark)
}

/// Whether the text has a colon.
fn is_cut(text: &str) -> bool
    ensures { result ≡ is_in 58 text.now }
{
    split_at_first(text, ':').is_some()
}

/// What stands behind the colon that the text begins with.
fn past_colon(text: &str) -> Option<&str>
    ensures other { is_some result ≡ false → begins_otherwise text.now ≡ is_some (past_first text.now) }
    ensures colon { IfSome result (λ d. (past_first text.now ≡ Some d.now) × (begins_otherwise text.now ≡ false)) }
{
    text.strip_prefix(':')
}
