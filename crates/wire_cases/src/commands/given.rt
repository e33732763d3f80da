//! What a command is built with, a document `with={ .. }` of these members, each of which may be absent: `client`, the name of
//! the client's database, else `"test"`; `lsid`, `number`, `mode` and `read`, the extras; `time`, the cluster time, a document
//! with a stamp `clusterTime`; `max_doc` and `max_message`, the server's sizes.
use crate::commands::members::{document, knows, lsid, member, name, text};
use bson_doc::{ClusterTime, Document, Lsid, Name, Rows, Text, Value};
use case_files::CaseFault;
use cmd_build::{Extras, Sizes};
use read_pref::{Mode, ReadPref, Tag, TagSet};
use std::alloc::Global;

/// What a command is built with.
#[derive(Drop)]
pub struct Given {
    /// The client's database.
    pub client: Text,
    /// The session's id.
    pub lsid: Option<Lsid>,
    /// The transaction number.
    pub number: Option<i64>,
    /// The mode that goes out.
    pub mode: Option<Mode>,
    /// The client's preference.
    pub read: Option<ReadPref>,
    /// The cluster time.
    pub time: Option<ClusterTime>,
    /// The server's sizes.
    pub sizes: Sizes,
}

impl Given {
    /// The extras among it.
    pub fn extras(&self) -> Extras<'_> {
        Extras {
            lsid: self.lsid,
            number: self.number,
            mode: self.mode,
            read: self.read.as_ref(),
        }
    }
}

/// What the document gives.
pub fn all_given(alloc: Global, with: Option<&Value>) -> Result<Given, CaseFault> {
    let with = match with {
        Some(value) => document(alloc, Some(value))?,
        None => Document::new(alloc),
    };
    knows(
        alloc,
        &with,
        &[
            "client",
            "lsid",
            "number",
            "mode",
            "read",
            "time",
            "max_doc",
            "max_message",
        ],
    )?;
    Ok(Given {
        client: client(alloc, member(&with, "client"))?,
        lsid: lsid_of(member(&with, "lsid"))?,
        number: number_of(member(&with, "number"))?,
        mode: mode_of(alloc, member(&with, "mode"))?,
        read: preference(alloc, member(&with, "read"))?,
        time: time_of(alloc, member(&with, "time"))?,
        sizes: sizes(&with)?,
    })
}

fn client(alloc: Global, value: Option<&Value>) -> Result<Text, CaseFault> {
    match value {
        Some(value) => Ok(text(value)?.copy(alloc)?),
        None => Ok(Text::take(alloc, "test")?),
    }
}

fn lsid_of(value: Option<&Value>) -> Result<Option<Lsid>, CaseFault> {
    match value {
        Some(value) => Ok(Some(lsid(value)?)),
        None => Ok(None),
    }
}

fn number_of(value: Option<&Value>) -> Result<Option<i64>, CaseFault> {
    match value {
        Some(Value::Int64(number)) => Ok(Some(*number)),
        Some(_) => Err(CaseFault::Refused("a number is of another kind")),
        None => Ok(None),
    }
}

fn mode_of(alloc: Global, value: Option<&Value>) -> Result<Option<Mode>, CaseFault> {
    match value {
        Some(value) => Ok(Some(mode(alloc, value)?)),
        None => Ok(None),
    }
}

/// The mode of that name.
fn mode(alloc: Global, value: &Value) -> Result<Mode, CaseFault> {
    let found = text(value)?.as_str();
    match Mode::from_name(found) {
        Some(mode) => Ok(mode),
        None => Err(CaseFault::form(alloc, found)),
    }
}

/// A preference: a document with a `mode`, and `tags`, an array of documents of texts, where it has tag sets.
pub fn preference(alloc: Global, value: Option<&Value>) -> Result<Option<ReadPref>, CaseFault> {
    let Some(value) = value else {
        return Ok(None);
    };
    let says = document(alloc, Some(value))?;
    knows(alloc, &says, &["mode", "tags"])?;
    let Some(found) = member(&says, "mode") else {
        return Err(CaseFault::Missing("mode"));
    };
    let mode = mode(alloc, found)?;
    let sets = tag_sets(alloc, member(&says, "tags"))?;
    match ReadPref::new(mode, sets) {
        Ok(read) => Ok(Some(read)),
        Err(_) => Err(CaseFault::Refused("tags on the mode primary")),
    }
}

fn tag_sets(alloc: Global, value: Option<&Value>) -> Result<Rows<TagSet>, CaseFault> {
    let mut sets = Rows::new(alloc);
    let Some(value) = value else {
        return Ok(sets);
    };
    let Some(items) = value.items() else {
        return Err(CaseFault::Refused("tags are of another kind"));
    };
    for item in items {
        sets.push(tag_set(alloc, item)?)?;
    }
    Ok(sets)
}

fn tag_set(alloc: Global, value: &Value) -> Result<TagSet, CaseFault> {
    let says = document(alloc, Some(value))?;
    let mut tags = Rows::new(alloc);
    for (name, value) in says.elements.as_slice() {
        let value = text(value)?.copy(alloc)?;
        tags.push(Tag {
            name: name.copy(alloc)?,
            value,
        })?;
    }
    Ok(tags)
}

fn time_of(alloc: Global, value: Option<&Value>) -> Result<Option<ClusterTime>, CaseFault> {
    let Some(value) = value else {
        return Ok(None);
    };
    let body = document(alloc, Some(value))?;
    let Some(stamp) = member(&body, "clusterTime").and_then(|value| value.stamp()) else {
        return Err(CaseFault::Missing("clusterTime"));
    };
    Ok(Some(ClusterTime { stamp, body }))
}

fn sizes(with: &Document) -> Result<Sizes, CaseFault> {
    let usual = Sizes::usual();
    Ok(Sizes {
        max_doc: size(member(with, "max_doc"), usual.max_doc)?,
        max_message: size(member(with, "max_message"), usual.max_message)?,
    })
}

fn size(value: Option<&Value>, usual: u32) -> Result<u32, CaseFault> {
    match value {
        Some(value) => match value.whole().and_then(|size| u32::try_from(size).ok()) {
            Some(size) => Ok(size),
            None => Err(CaseFault::Refused("a size is of another kind")),
        },
        None => Ok(usual),
    }
}
