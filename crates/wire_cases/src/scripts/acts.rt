use bson_doc::Document;
use case_documents::push_elements;
use case_files::Memory;
use cmd_build::Act;
use read_pref::{ReadPref, TagSet};
use std::alloc::Global;

/// The member of that name of an act; none where it has no such member.
pub fn member(alloc: Global, act: &Act, name: &str) -> Result<Option<String>, Memory> {
    match act {
        Act::Insert { doc } => match name {
            "doc" => Ok(Some(document(alloc, name, doc)?)),
            _ => Ok(None),
        },
        Act::Update {
            filter,
            change,
            multi,
            upsert,
        } => match name {
            "filter" => Ok(Some(document(alloc, name, filter)?)),
            "change" => Ok(Some(document(alloc, name, change)?)),
            "multi" => Ok(Some(flag(alloc, name, *multi)?)),
            "upsert" => Ok(Some(flag(alloc, name, *upsert)?)),
            _ => Ok(None),
        },
        Act::Delete { filter, all } => match name {
            "filter" => Ok(Some(document(alloc, name, filter)?)),
            "all" => Ok(Some(flag(alloc, name, *all)?)),
            _ => Ok(None),
        },
        Act::FindAndModify { filter, change } => match name {
            "filter" => Ok(Some(document(alloc, name, filter)?)),
            "change" => Ok(Some(document_if(alloc, name, change)?)),
            _ => Ok(None),
        },
        Act::Find { filter, read } => match name {
            "filter" => Ok(Some(document(alloc, name, filter)?)),
            "read" => Ok(Some(preference(alloc, read)?)),
            _ => Ok(None),
        },
    }
}

fn document(alloc: Global, name: &str, document: &Document) -> Result<String, Memory> {
    let mut line = String::from_str(alloc, name)?;
    push_elements(&mut line, document)?;
    Ok(line)
}

fn document_if(alloc: Global, name: &str, absent: &Option<Document>) -> Result<String, Memory> {
    match absent {
        Some(there) => document(alloc, name, there),
        None => format!(in alloc; "{name} none"),
    }
}

fn flag(alloc: Global, name: &str, truth: bool) -> Result<String, Memory> {
    format!(in alloc; "{name} {truth}")
}

/// A read preference: its mode, and each tag set in brackets.
fn preference(alloc: Global, read: &Option<ReadPref>) -> Result<String, Memory> {
    let Some(read) = read else {
        return String::from_str(alloc, "read none");
    };
    let mut line = format!(in alloc; "read {:?}", read.mode())?;
    for set in read.tag_sets().as_slice() {
        push_set(&mut line, set)?;
    }
    Ok(line)
}

fn push_set(line: &mut String, set: &TagSet) -> Result<(), Memory> {
    line.push_str(" [")?;
    for tag in set.as_slice() {
        write!(line, " {}=\"{}\"", tag.name.as_str(), tag.value.as_str())?;
    }
    line.push_str(" ]")
}
