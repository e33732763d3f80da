use bson_doc::{Bytes, Document};
use case_documents::document;
use case_files::{CaseFault, Words};
use msg_wire::write;
use std::alloc::Global;

/// The requestID of each message that a server sends.
const SERVER_ID: i32 = 7;

/// Documents that have names.
#[derive(Drop)]
pub struct Documents {
    all: Vec<Named>,
}

/// A document and its name.
#[derive(Drop)]
struct Named {
    name: String,
    document: Document,
}

impl Documents {
    /// No document has a name.
    pub fn new(alloc: Global) -> Documents {
        Documents {
            all: Vec::new(alloc),
        }
    }

    /// Names the document of the words that are left, and answers how many members it has.
    pub fn add(
        &mut self,
        alloc: Global,
        name: &str,
        words: &mut Words<'_>,
    ) -> Result<usize, CaseFault> {
        if self.find(name).is_some() {
            return Err(CaseFault::Refused("the name is taken"));
        }
        let document = document(alloc, words)?;
        let members = document.elements.len();
        let name = String::from_str(alloc, name)?;
        self.all.push(Named { name, document })?;
        Ok(members)
    }

    fn find(&self, name: &str) -> Option<&Document> {
        for named in self.all.iter() {
            if named.name.as_str() == name {
                return Some(&named.document);
            }
        }
        None
    }

    /// The message with the document of that name, in answer to the request of that id.
    pub fn message(&self, alloc: Global, name: &str, to: i32) -> Result<Bytes, CaseFault> {
        let Some(document) = self.find(name) else {
            return Err(CaseFault::form(alloc, name));
        };
        match write(alloc, SERVER_ID, to, 0, document) {
            Ok(bytes) => Ok(bytes),
            Err(_) => Err(CaseFault::Memory),
        }
    }
}
