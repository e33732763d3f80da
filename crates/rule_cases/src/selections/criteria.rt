//! Read preferences: a mode, and tag sets between commas, each of tags `NAME:VALUE` between plus signs, `-` for the empty set.
use crate::selections::values::pair;
use bson_doc::{Name, NameFault, Rows, Text};
use case_files::CaseFault;
use read_pref::{Mode, ReadPref, Tag, TagSet};
use std::alloc::Global;

/// The preference of a mode, and of tag sets where some are given.
pub fn preference(
    alloc: Global,
    mode: &str,
    tag_sets: Option<&str>,
) -> Result<ReadPref, CaseFault> {
    let Some(mode) = Mode::from_name(mode) else {
        return Err(CaseFault::form(alloc, mode));
    };
    let sets = match tag_sets {
        Some(text) => sets(alloc, text)?,
        None => Rows::new(alloc),
    };
    match ReadPref::new(mode, sets) {
        Ok(preference) => Ok(preference),
        Err(_) => Err(CaseFault::Refused("tags beside the mode primary")),
    }
}

fn sets(alloc: Global, text: &str) -> Result<Rows<TagSet>, CaseFault> {
    let mut sets = Rows::new(alloc);
    for text in text.split(',') {
        sets.push(set(alloc, text)?)?;
    }
    Ok(sets)
}

fn set(alloc: Global, text: &str) -> Result<TagSet, CaseFault> {
    let mut tags = Rows::new(alloc);
    if text == "-" {
        return Ok(tags);
    }
    for text in text.split('+') {
        tags.push(tag(alloc, text)?)?;
    }
    Ok(tags)
}

fn tag(alloc: Global, text: &str) -> Result<Tag, CaseFault> {
    let (name, value) = pair(alloc, text)?;
    let name = match Name::from_str(alloc, name) {
        Ok(name) => name,
        Err(NameFault::Memory) => return Err(CaseFault::Memory),
        Err(_) => return Err(CaseFault::form(alloc, text)),
    };
    let value = Text::take(alloc, value)?;
    Ok(Tag { name, value })
}
