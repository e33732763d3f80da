use crate::{CaseFault, Memory};
use std::alloc::Global;
use std::mem;
use std::str::FromStr;

/// The words of a step that were not taken yet.
#[derive(Drop)]
pub struct Words<'a> {
    left: Vec<&'a str>,
}

impl<'a> Words<'a> {
    /// The words of a line.
    pub fn of_line(alloc: Global, line: &'a str) -> Result<Words<'a>, Memory> {
        let mut left = Vec::new(alloc);
        for word in line.split(' ') {
            if !word.is_empty() {
                left.push(word)?;
            }
        }
        Ok(Words { left })
    }

    /// Takes the first word that is left.
    pub fn next(&mut self) -> Option<&'a str> {
        if self.left.is_empty() {
            return None;
        }
        Some(self.left.remove(0))
    }

    /// Takes the first word that is left; `what` is what it is to be.
    pub fn next_as(&mut self, what: &'static str) -> Result<&'a str, CaseFault> {
        self.next().ok_or(CaseFault::Missing(what))
    }

    /// Takes all words that are left.
    pub fn rest(&mut self, alloc: Global) -> Vec<&'a str> {
        mem::replace(&mut self.left, Vec::new(alloc))
    }

    /// Takes a word, where it is left.
    pub fn flag(&mut self, word: &str) -> bool {
        match self.left.iter().position(|left| *left == word) {
            Some(place) => {
                self.left.remove(place);
                true
            }
            None => false,
        }
    }

    /// Takes the first word `name=value` of the name that is left, and gives its value.
    pub fn value(&mut self, name: &str) -> Option<&'a str> {
        let place = self.left.iter().position(|left| is_named(left, name))?;
        let word = self.left.remove(place);
        let (_, value) = word.split_once('=')?;
        Some(value)
    }

    /// Takes the word `name=value` of the name, which must be there.
    pub fn must_value(&mut self, name: &'static str) -> Result<&'a str, CaseFault> {
        self.value(name).ok_or(CaseFault::Missing(name))
    }

    /// The number that the word `name=value` gives, if it is there.
    pub fn number<T: FromStr>(&mut self, alloc: Global, name: &str) -> Result<Option<T>, CaseFault>
    where
        T::Err: Drop,
    {
        match self.value(name) {
            Some(value) => Ok(Some(parsed(alloc, value)?)),
            None => Ok(None),
        }
    }

    /// No word is left; else the first that is left is at fault.
    pub fn end(&self, alloc: Global) -> Result<(), CaseFault> {
        match self.left.first() {
            Some(word) => Err(CaseFault::word(alloc, word)),
            None => Ok(()),
        }
    }
}

fn is_named(word: &str, name: &str) -> bool {
    match word.split_once('=') {
        Some((found, _)) => found == name,
        None => false,
    }
}

/// The value that a text is in form of.
pub fn parsed<T: FromStr>(alloc: Global, text: &str) -> Result<T, CaseFault>
where
    T::Err: Drop,
{
    match text.parse::<T>() {
        Ok(value) => Ok(value),
        Err(_) => Err(CaseFault::form(alloc, text)),
    }
}
