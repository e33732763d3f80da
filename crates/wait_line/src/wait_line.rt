ghost use Rattle.std.specs.Prelude.{◌≡◌, ◌-◌, ◌^◌, ◌<◌, [], Some, false, length, slice_get, IfOk, IfSome, IfNone, OnOk, OnErr};
ghost use Rattle.wait_line.specs.Queue.{joined, left, is_among, is_first};

use crate::Memory;
use std::alloc::Global;
use std::collections::VecDeque;
use std::marker::Model;

/// The numbers of the tickets that wait, in the order in which they entered.
///
/// ```text
///                 enter                is_front             leave
///   (no ticket) --------> [.., number] --------> [number, ..] ------> (no ticket)
///                              |                                          ^
///                              +------------------ leave -----------------+
/// ```
///
/// Numbers count from 0 and none is given twice. Contracts see the list and how many numbers were given.
#[derive(Debug, Drop)]
pub struct WaitLine {
    waiting: VecDeque<u64>,
    given: u64,
}

impl Model for WaitLine {
    ghost use Rattle.wait_line.specs.Queue.{Queue};

    ghost Value = { Queue };

    ghost view = { λ l. record { waiting = l.waiting.items; given = l.given } };

    ghost use Rattle.wait_line.specs.Rising.{Rises};

    ghost invariant = { λ l. Rises (λ n. n) 0 l.waiting.items l.given };
}

impl WaitLine {
    /// The empty line, which takes no memory; no number was given.
    pub fn new(alloc: Global) -> WaitLine
        ensures { result ≡ record { waiting = []; given = 0 } }
    {
        WaitLine {
            waiting: VecDeque::new(alloc),
            given: 0,
        }
    }

    /// How many tickets wait.
    pub fn len(&self) -> usize
        ensures { result ≡ length self.now.waiting }
    {
        self.waiting.len()
    }

    /// How many numbers were given so far, which is the next one.
    pub fn given(&self) -> u64
        ensures { result ≡ self.now.given }
    {
        self.given
    }

    /// Whether the number is in the line.
    pub fn is_waiting(&self, number: u64) -> bool
        ensures { result ≡ is_among self.now.waiting number }
    {
        self.place(number).is_some()
    }

    /// Gives the next number and appends it to the line.
    ///
    /// Where it gets no memory the line stays as it was, and the number is not given.
    pub fn enter(&mut self) -> Result<u64, Memory>
        requires { self.old.given < 2 ^ 64 - 1 }
        ensures number { IfOk result (λ number. number ≡ self.old.given) }
        ensures ok { OnOk result (self.new ≡ joined self.old) }
        ensures err { OnErr result (self.new ≡ self.old) }
    {
        let number = self.given;
        self.waiting.push_back(number)?;
        self.given += 1;
        Ok(number)
    }

    /// Whether the number stands first in the line.
    pub fn is_front(&self, number: u64) -> bool
        ensures { result ≡ is_first self.now.waiting number }
    {
        match self.waiting.front() {
            Some(first) => *first == number,
            None => false,
        }
    }

    /// Takes the number out of the line. A number that is not in it leaves the line as it is.
    pub fn leave(&mut self, number: u64)
        ensures left { self.new ≡ left number self.old }
        ensures absent { is_among self.old.waiting number ≡ false → self.new ≡ self.old }
    {
        let Some(place) = self.place(number) else {
            return;
        };
        self.waiting.remove(place);
    }

    /// The place of the number in the line, counted from the front, found by halves.
    pub fn place(&self, number: u64) -> Option<usize>
        ensures some { IfSome result (λ place. slice_get self.now.waiting place ≡ Some number) }
        ensures none { IfNone result (is_among self.now.waiting number ≡ false) }
    {
        self.waiting.binary_search(&number).ok()
    }
}
