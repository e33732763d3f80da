//! The read preference that a find sends.
ghost use Rattle.std.specs.Prelude.{◌≡◌, ◌++◌, [], ◌∷◌, map, IfOk, OnOk, codes};
ghost use Rattle.std.specs.Option.{option_copied, option_map};
ghost use Rattle.bson_doc.specs.declared.value.Value.{Array, Doc};
ghost use Rattle.cmd_build.specs.Commands.{mode_of_find, preference_document, sent_mode as mode_of_act, sent_tags as tags_of_act, tag_document as document_of_tags, tag_sets_field, tag_value};

use crate::Memory;
use crate::command::Act;
use crate::extras::Extras;
use crate::parts::text;
use bson_doc::{Document, Rows, Value};
use read_pref::{Mode, ReadPref, Tag, TagSet};
use std::alloc::Global;

/// The mode that an act sends.
pub(crate) fn sent_mode(act: &Act, mode: Option<Mode>) -> Option<Mode>
    ensures { result ≡ mode_of_act act.now mode }
{
    match act {
        Act::Find { .. } => match mode {
            Some(Mode::Primary) => None,
            mode => mode,
        },
        _ => None,
    }
}

/// The tag sets that an act sends: those of its own preference, else those of the client's.
pub(crate) fn sent_tags<'a>(act: &'a Act, read: Option<&'a ReadPref>) -> &'a [TagSet]
    ensures { result.now ≡ tags_of_act act.now (option_copied read.entry) }
{
    match act {
        Act::Find {
            filter: _,
            read: Some(own),
        } => own.tag_sets().as_slice(),
        _ => match read {
            Some(read) => read.tag_sets().as_slice(),
            None => &[],
        },
    }
}

/// A read preference as it is sent.
pub(crate) fn preference_document(
    alloc: Global,
    sets: &[TagSet],
    mode: Mode,
) -> Result<Document, Memory>
    ensures { IfOk result (λ d. d ≡ preference_document sets.now mode) }
{
    let mut preference = Document::new(alloc);
    preference.put(alloc, "mode", text(alloc, mode.name())?)?;
    if sets.is_empty() {
        return Ok(preference);
    }
    let sets = tag_sets(alloc, sets)?;
    preference.put(alloc, "tags", Value::Array(sets))?;
    Ok(preference)
}

/// The tag sets as documents.
fn tag_sets(alloc: Global, sets: &[TagSet]) -> Result<Rows<Value>, Memory>
    ensures { IfOk result (λ items. items ≡ map tag_value sets.now) }
{
    let mut items = Rows::new(alloc);
    for tags in sets {
        items.push(Value::Doc(tag_document(alloc, tags.as_slice())?))?;
    }
    Ok(items)
}

/// The document of the tags of one set.
fn tag_document(alloc: Global, tags: &[Tag]) -> Result<Document, Memory>
    ensures { IfOk result (λ d. d ≡ document_of_tags tags.now) }
{
    let mut document = Document::new(alloc);
    for tag in tags {
        document.push(tag.name.copy(alloc)?, Value::Str(tag.value.copy(alloc)?))?;
    }
    Ok(document)
}
