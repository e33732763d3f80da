ghost use Rattle.std.specs.Prelude.{◌≡◌, ◌<◌, length, slice_index};
ghost use Rattle.net_link.specs.Round.{next_place};

use crate::Dice;
use bson_doc::Rows;
use std::marker::Model;

/// Dice that roll the words of a list, in order and again from the first one.
#[derive(Debug, Drop)]
pub struct ListDice {
    words: Rows<u64>,
    place: usize,
}

impl Model for ListDice {
    ghost use Rattle.std.specs.Prelude.{◌<◌, length};
    ghost use Rattle.net_link.specs.Round.{Round};

    ghost Value = { Round };

    ghost view = { λ d. record { words = d.words; place = d.place } };

    ghost invariant = { λ d. d.place < length d.words };
}

impl ListDice {
    /// Dice that begin with the first word of a list that is not empty.
    pub fn new(words: Rows<u64>) -> ListDice
        requires { 0 < length words }
        ensures words { result.words ≡ words }
        ensures place { result.place ≡ 0 }
    {
        ListDice { words, place: 0 }
    }
}

impl Dice for ListDice {
    ghost rolls = { λ _. Unit {0} };

    fn word(&mut self) -> u64
        ensures word { result ≡ slice_index self.old.words self.old.place }
        ensures words { self.new.words ≡ self.old.words }
        ensures place { self.new.place ≡ next_place self.old }
    {
        let words = self.words.as_slice();
        let word = words[self.place];
        self.place += 1;
        if self.place >= words.len() {
            self.place = 0;
        }
        word
    }
}
