//! The read preference of a find, by its mode and its tags (Server Selection, Read Preference).
ghost use Rattle.std.specs.Prelude.{◌≡◌, false, IfOk, Some, option_and_then, option_map};
ghost use Rattle.read_pref.specs.Modes.{mode_named};
ghost use Rattle.read_pref.specs.Preferences.{has_tags_on_primary};
ghost use Rattle.serde_json.specs.Find.{as_str};
ghost use Rattle.serde_json.specs.View.{items_view, members_view, view};
ghost use Rattle.script_text.specs.Reads.{preference_with, read_at as read_in, set_from, sets_from, sets_in, tag_from, tags_in};

use crate::Memory;
use crate::member::Member;
use crate::values::value_at;
use bson_doc::{Name, Rows, Text};
use read_pref::{Mode, ReadPref, Tag, TagSet};
use serde_json::{Map, Value};
use std::alloc::Global;

/// The read preference, none where the client's own stands.
pub(crate) fn read_at(alloc: Global, value: &Value) -> Result<Option<Option<ReadPref>>, Memory>
    ensures { IfOk result (λ r. r ≡ read_in (view value.now)) }
{
    let tags = value_at(value, Member::Tags);
    let Some(mode) = value_at(value, Member::Mode) else {
        return match tags {
            Some(_) => Ok(None),
            None => Ok(Some(None)),
        };
    };
    let Some(mode) = mode_of(mode) else {
        return Ok(None);
    };
    match preference_of(alloc, mode, tags)? {
        Some(preference) => Ok(Some(Some(preference))),
        None => Ok(None),
    }
}

/// The mode of that name.
fn mode_of(value: &Value) -> Option<Mode>
    ensures { result ≡ option_and_then mode_named (as_str (view value.now)) }
{
    match value.as_str() {
        Some(name) => Mode::from_name(name),
        None => None,
    }
}

/// The preference of a mode and of tags that may be absent; with mode primary they are.
#[tactic(auto, using(crate::proofs::TagLemmas::tag_lemmas))]
fn preference_of(
    alloc: Global,
    mode: Mode,
    tags: Option<&Value>,
) -> Result<Option<ReadPref>, Memory>
    ensures { IfOk result (λ p. p ≡ preference_with mode (option_map (λ t. view t.now) tags.entry)) }
{
    let Some(tags) = tags else {
        return Ok(preference(mode, Rows::new(alloc)));
    };
    if matches!(mode, Mode::Primary) {
        return Ok(None);
    }
    match sets_of(alloc, tags)? {
        Some(sets) => Ok(preference(mode, sets)),
        None => Ok(None),
    }
}

/// The preference of a mode and tag sets that may stand beside it.
fn preference(mode: Mode, sets: Rows<TagSet>) -> Option<ReadPref>
    requires { has_tags_on_primary (record { mode = mode; tag_sets = sets }) ≡ false }
    ensures { result ≡ Some (record { mode = mode; tag_sets = sets }) }
{
    match ReadPref::new(mode, sets) {
        Ok(preference) => Some(preference),
        Err(_) => None,
    }
}

/// The tag sets of an array of objects of texts.
fn sets_of(alloc: Global, value: &Value) -> Result<Option<Rows<TagSet>>, Memory>
    ensures { IfOk result (λ s. s ≡ sets_from (view value.now)) }
{
    match value {
        Value::Array(items) => each_set(alloc, items),
        _ => Ok(None),
    }
}

#[tactic(auto, using(crate::proofs::TagLemmas::tag_lemmas))]
fn each_set(alloc: Global, items: &Vec<Value>) -> Result<Option<Rows<TagSet>>, Memory>
    ensures { IfOk result (λ s. s ≡ sets_in (items_view items.now.items)) }
{
    let mut sets = Rows::new(alloc);
    for item in items.iter() {
        match set_of(alloc, item)? {
            Some(set) => sets.push(set)?,
            None => return Ok(None),
        }
    }
    Ok(Some(sets))
}

/// The tag set of an object of texts.
fn set_of(alloc: Global, value: &Value) -> Result<Option<TagSet>, Memory>
    ensures { IfOk result (λ s. s ≡ set_from (view value.now)) }
{
    match value {
        Value::Object(members) => each_tag(alloc, members),
        _ => Ok(None),
    }
}

#[tactic(auto, using(crate::proofs::TagLemmas::tag_lemmas))]
fn each_tag(alloc: Global, members: &Map<String, Value>) -> Result<Option<TagSet>, Memory>
    ensures { IfOk result (λ s. s ≡ tags_in (members_view members.now.entries)) }
{
    let mut tags = Rows::new(alloc);
    for (key, value) in members.iter() {
        match tag_of(alloc, key.as_str(), value)? {
            Some(tag) => tags.push(tag)?,
            None => return Ok(None),
        }
    }
    Ok(Some(tags))
}

/// The tag of a name without a zero and a text.
fn tag_of(alloc: Global, name: &str, value: &Value) -> Result<Option<Tag>, Memory>
    ensures { IfOk result (λ t. t ≡ tag_from name.now (view value.now)) }
{
    let Some(value) = value.as_str() else {
        return Ok(None);
    };
    let Ok(name) = Name::new(Text::take(alloc, name)?) else {
        return Ok(None);
    };
    let value = Text::take(alloc, value)?;
    Ok(Some(Tag { name, value }))
}
