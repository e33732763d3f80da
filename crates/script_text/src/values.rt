//! What a member of a line says, by the kind of value that it is to have; none where it has another.
ghost use Rattle.std.specs.Prelude.{◌≡◌, IfOk, option_map};
ghost use Rattle.serde_json.specs.Find.{get};
ghost use Rattle.serde_json.specs.View.{number_view, view};
ghost use Rattle.script_text.specs.Members.{name_of};
ghost use Rattle.script_text.specs.Values.{all_at as all_in, change_at as change_in, db_at as db_in, flag_at as flag_in, lane_at as lane_in, lane_number, name_at as name_in, name_from, object_at as object_in, op_in, text_at as text_in};

use crate::Memory;
use crate::member::Member;
use bson_doc::{Name, Text};
use cmd_build::Op;
use serde_json::{Number, Value};
use std::alloc::Global;

/// The greatest number of a lane.
const LANES: u64 = 64;

/// The member's value, where it is there.
pub(crate) fn value_at(value: &Value, member: Member) -> Option<&Value>
    ensures { option_map (λ v. view v.now) result ≡ get (name_of member) (view value.now) }
{
    value.get(member.name())
}

/// The member's text.
pub(crate) fn text_at(value: &Value, member: Member) -> Option<&str>
    ensures { option_map (λ t. t.now) result ≡ text_in member (view value.now) }
{
    match value_at(value, member) {
        Some(text) => text.as_str(),
        None => None,
    }
}

/// What the command does.
pub(crate) fn op_at(value: &Value) -> Option<Op>
    ensures { result ≡ op_in (view value.now) }
{
    match text_at(value, Member::Op) {
        Some(name) => Op::from_name(name),
        None => None,
    }
}

/// The lane, an integer: its number, none where it is not from 1 to 64.
pub(crate) fn lane_at(value: &Value) -> Option<Option<u32>>
    ensures { result ≡ lane_in (view value.now) }
{
    let Some(lane) = value_at(value, Member::Lane) else {
        return None;
    };
    match lane.as_number() {
        Some(number) if !number.is_f64() => Some(number_of_lane(number)),
        _ => None,
    }
}

/// The number of a lane, from 1 to 64.
fn number_of_lane(number: &Number) -> Option<u32>
    ensures { result ≡ lane_number (number_view number.now) }
{
    match number.as_u64() {
        Some(n) if 1 <= n && n <= LANES => Some(n as u32),
        _ => None,
    }
}

/// The member's name of a collection or a database.
pub(crate) fn name_at(alloc: Global, value: &Value, member: Member) -> Result<Option<Name>, Memory>
    ensures { IfOk result (λ n. n ≡ name_in member (view value.now)) }
{
    match text_at(value, member) {
        Some(text) => name_of_text(alloc, text),
        None => Ok(None),
    }
}

/// The text as a name, unless it is empty or has a zero.
pub(crate) fn name_of_text(alloc: Global, text: &str) -> Result<Option<Name>, Memory>
    ensures { IfOk result (λ n. n ≡ name_from text.now) }
{
    if text.is_empty() {
        return Ok(None);
    }
    match Name::new(Text::take(alloc, text)?) {
        Ok(name) => Ok(Some(name)),
        Err(_) => Ok(None),
    }
}

/// The database, where one is named.
pub(crate) fn db_at(alloc: Global, value: &Value) -> Result<Option<Option<Name>>, Memory>
    ensures { IfOk result (λ n. n ≡ db_in (view value.now)) }
{
    if value_at(value, Member::Db).is_none() {
        return Ok(Some(None));
    }
    match name_at(alloc, value, Member::Db)? {
        Some(name) => Ok(Some(Some(name))),
        None => Ok(None),
    }
}

/// The member's object.
pub(crate) fn object_at(value: &Value, member: Member) -> Option<&Value>
    ensures { option_map (λ d. view d.now) result ≡ object_in member (view value.now) }
{
    match value_at(value, member) {
        Some(object) if object.is_object() => Some(object),
        _ => None,
    }
}

/// The member's truth value, false where it is absent.
pub(crate) fn flag_at(value: &Value, member: Member) -> Option<bool>
    ensures { result ≡ flag_in member (view value.now) }
{
    match value_at(value, member) {
        Some(flag) => flag.as_bool(),
        None => Some(false),
    }
}

/// Whether a delete is of all documents that fit, by its limit.
pub(crate) fn all_at(value: &Value) -> Option<bool>
    ensures { result ≡ all_in (view value.now) }
{
    let Some(limit) = value_at(value, Member::Limit) else {
        return Some(false);
    };
    match limit.as_u64() {
        Some(n) if n == 0 => Some(true),
        Some(n) if n == 1 => Some(false),
        _ => None,
    }
}

/// What a findAndModify does with the document: the change, or none where it is removed.
pub(crate) fn change_at(value: &Value) -> Option<Option<&Value>>
    ensures { option_map (λ o. option_map (λ c. view c.now) o) result ≡ change_in (view value.now) }
{
    match value_at(value, Member::Remove) {
        Some(remove) => {
            if remove.as_bool() == Some(true) && value_at(value, Member::Change).is_none() {
                return Some(None);
            }
            None
        }
        None => match object_at(value, Member::Change) {
            Some(change) => Some(Some(change)),
            None => None,
        },
    }
}
