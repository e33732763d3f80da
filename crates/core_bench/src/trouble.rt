/// What the words may be.
const USAGE: &str = "usage: core_bench documents FILE ROUNDS
       core_bench topology plain|equal primary|broken|described HOSTS ROUNDS
       core_bench selection HOSTS ROUNDS
       core_bench pools WAITING AVAILABLE LENT ROUNDS
       core_bench sessions OUT ROUNDS
       core_bench checks CHECKS, a multiple of ten from 10 to 1000000
       core_bench halls WRITES, a multiple of ten from 10 to 1000000";

/// Why nothing was measured.
#[derive(Drop)]
pub enum Trouble {
    /// The words are not in form.
    Words,
    /// The file cannot be read.
    File,
    /// The file is not one document.
    Document,
    /// Memory was wanting, or what is measured gave an answer that was not asked for.
    Answer,
    /// The machine tells no time.
    Clock,
}

impl Trouble {
    /// What is printed on standard error.
    pub fn text(&self) -> &'static str {
        match self {
            Trouble::Words => USAGE,
            Trouble::File => "core_bench: the file cannot be read",
            Trouble::Document => "core_bench: the file is not one document",
            Trouble::Answer => "core_bench: memory, or an answer that was not asked for",
            Trouble::Clock => "core_bench: no clock",
        }
    }

    /// The status that the program ends with.
    pub fn status(&self) -> u8 {
        match self {
            Trouble::Words => 2,
            Trouble::File | Trouble::Document | Trouble::Answer | Trouble::Clock => 1,
        }
    }
}
