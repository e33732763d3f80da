ghost use Rattle.std.specs.Prelude.{◌≡◌, IfOk};
ghost use Rattle.cmd_build.specs.Ops.{op_of, retries, writes};

use crate::{Memory, Op};
use bson_doc::{Document, Name};
use read_pref::ReadPref;
use std::alloc::Global;

/// What a command does (CRUD).
#[derive(Debug, Drop)]
pub enum Act {
    /// Adds a document to the collection (CRUD, insertOne).
    Insert {
        /// The document, as it is stored; the server adds an `_id` where it has none.
        doc: Document,
    },
    /// Changes the first document that fits, or all (CRUD, updateOne, replaceOne, updateMany).
    Update {
        /// Which documents fit.
        filter: Document,
        /// The change: update operators, or a whole document that stands in place of the other one.
        change: Document,
        /// All documents that fit, in place of the first.
        multi: bool,
        /// A document is added where none fits.
        upsert: bool,
    },
    /// Removes the first document that fits, or all (CRUD, deleteOne, deleteMany).
    Delete {
        /// Which documents fit.
        filter: Document,
        /// All documents that fit, in place of the first.
        all: bool,
    },
    /// Changes or removes the first document that fits, and answers it (CRUD, findOneAndUpdate, findOneAndReplace,
    /// findOneAndDelete).
    FindAndModify {
        /// Which documents fit.
        filter: Document,
        /// The change; None removes the document.
        change: Option<Document>,
    },
    /// Reads the first document that fits (CRUD, findOne).
    Find {
        /// Which documents fit.
        filter: Document,
        /// Which servers may be read from; None stands for the client's own preference.
        read: Option<ReadPref>,
    },
}

/// A command on a collection.
#[derive(Debug, Drop)]
pub struct Command {
    /// The number of the lane that runs it; commands of one lane run one after another.
    pub lane: u32,
    /// The collection's database, None for the client's own.
    pub db: Option<Name>,
    /// The collection.
    pub coll: Name,
    /// What to do.
    pub act: Act,
}

/// Whether the command may change data: all but a find do (Retryable Writes, Supported Write Operations).
pub fn is_write(command: &Command) -> bool
    ensures writes { result ≡ writes command.now.act }
{
    match &command.act {
        Act::Find { .. } => false,
        _ => true,
    }
}

/// Whether the command is a write that may be sent once more under its transaction number: an insert, an update without
/// `multi`, a delete without `all`, or a findAndModify (Retryable Writes, Supported Write Operations).
pub fn is_retryable(command: &Command) -> bool
    ensures retries { result ≡ retries command.now.act }
{
    match &command.act {
        Act::Insert { .. } => true,
        Act::Update { multi, .. } => !*multi,
        Act::Delete { all, .. } => !*all,
        Act::FindAndModify { .. } => true,
        Act::Find { .. } => false,
    }
}

impl Act {
    /// Which command the act is.
    pub fn op(&self) -> Op
        ensures op { result ≡ op_of self.now }
    {
        match self {
            Act::Insert { .. } => Op::Insert,
            Act::Update { .. } => Op::Update,
            Act::Delete { .. } => Op::Delete,
            Act::FindAndModify { .. } => Op::FindAndModify,
            Act::Find { .. } => Op::Find,
        }
    }

    /// An equal act.
    pub fn copy(&self, alloc: Global) -> Result<Act, Memory>
        ensures equal { IfOk result (λ a. a ≡ self.now) }
    {
        match self {
            Act::Insert { doc } => Ok(Act::Insert {
                doc: doc.copy(alloc)?,
            }),
            Act::Update {
                filter,
                change,
                multi,
                upsert,
            } => Ok(Act::Update {
                filter: filter.copy(alloc)?,
                change: change.copy(alloc)?,
                multi: *multi,
                upsert: *upsert,
            }),
            Act::Delete { filter, all } => Ok(Act::Delete {
                filter: filter.copy(alloc)?,
                all: *all,
            }),
            Act::FindAndModify { filter, change } => Ok(Act::FindAndModify {
                filter: filter.copy(alloc)?,
                change: copy_document(alloc, change)?,
            }),
            Act::Find { filter, read } => Ok(Act::Find {
                filter: filter.copy(alloc)?,
                read: copy_preference(alloc, read)?,
            }),
        }
    }
}

impl Command {
    /// An equal command.
    pub fn copy(&self, alloc: Global) -> Result<Command, Memory>
        ensures equal { IfOk result (λ c. c ≡ self.now) }
    {
        Ok(Command {
            lane: self.lane,
            db: copy_name(alloc, &self.db)?,
            coll: self.coll.copy(alloc)?,
            act: self.act.copy(alloc)?,
        })
    }
}

/// An equal name, where there is one.
fn copy_name(alloc: Global, name: &Option<Name>) -> Result<Option<Name>, Memory>
    ensures { IfOk result (λ n. n ≡ name.now) }
{
    match name {
        Some(name) => Ok(Some(name.copy(alloc)?)),
        None => Ok(None),
    }
}

/// An equal document, where there is one.
fn copy_document(alloc: Global, document: &Option<Document>) -> Result<Option<Document>, Memory>
    ensures { IfOk result (λ d. d ≡ document.now) }
{
    match document {
        Some(document) => Ok(Some(document.copy(alloc)?)),
        None => Ok(None),
    }
}

/// An equal preference, where there is one.
fn copy_preference(alloc: Global, read: &Option<ReadPref>) -> Result<Option<ReadPref>, Memory>
    ensures { IfOk result (λ r. r ≡ read.now) }
{
    match read {
        Some(read) => Ok(Some(read.copy(alloc)?)),
        None => Ok(None),
    }
}
