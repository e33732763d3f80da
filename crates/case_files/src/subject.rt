use crate::{CaseFault, Words};
use std::alloc::Global;

/// What the steps of case files are about.
pub trait Subject {
    /// Forgets the steps that were taken; a file begins.
    fn begin(&mut self, alloc: Global) -> Result<(), CaseFault>;

    /// Takes the step of these words, each of which it takes once. Words that it leaves are at fault.
    fn step(&mut self, alloc: Global, words: &mut Words<'_>) -> Result<(), CaseFault>;

    /// What stands behind the last step, as a line whose first word is the fact's name; none where the step has no fact of
    /// that name.
    fn fact(&self, alloc: Global, name: &str) -> Result<Option<String>, CaseFault>;
}
