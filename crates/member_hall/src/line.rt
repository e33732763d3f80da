ghost use Rattle.std.specs.Prelude.{◌≡◌, ◌<◌, ◌≤◌, [], ◌∷◌, ◌++◌, length, Some, None};
ghost use Rattle.std.specs.List.{prefix_len};
ghost use Rattle.member_hall.specs.Lines.{can_read, end_line, first_bytes, front_at, give_line, new_line, shut_line};

use crate::answer::Answer;
use crate::late::LateRequest;
use crate::tail::Tail;
use std::alloc::Global;
use std::marker::Model;

/// A stream to a member.
#[derive(Debug, Drop)]
pub struct Line {
    /// The member's place.
    pub member: u32,
    /// How many requests were handled or refused.
    pub count: u64,
    /// The bytes behind them.
    pub rest: Tail,
    /// The answers that no read has had whole, in order.
    pub answers: Vec<Answer>,
    /// A request that is handled later.
    pub late: Option<LateRequest>,
    /// Whether the member ended it.
    pub ended: bool,
    /// Whether it is open.
    pub live: bool,
}

impl Model for Line {
    ghost use Rattle.std.specs.Coded.{codes};
    ghost use Rattle.bson_doc.specs.contracts.value.Value as values;
    ghost use Rattle.member_hall.specs.Lines.{LineState};

    ghost Value = { LineState };

    ghost coded = { Prim.hlevel (codes, values.the_row.coded) };

    ghost view = { λ l. record { member = l.member; count = l.count; rest = l.rest; answers = l.answers.items; late = l.late; ended = l.ended; live = l.live } };
}

impl Line {
    /// An open stream.
    pub fn new(alloc: Global, member: u32) -> Line
        ensures { result ≡ new_line member }
    {
        Line {
            member,
            count: 0,
            rest: Tail::new(alloc),
            answers: Vec::new(alloc),
            late: None,
            ended: false,
            live: true,
        }
    }

    /// The member ends it at that turn: what it has not answered by then it never answers.
    pub fn end(&mut self, turn: u64)
        ensures { self.new ≡ end_line turn self.old }
    {
        let ready = self.ready(turn);
        self.answers.truncate(ready);
        self.rest.clear();
        self.ended = true;
    }

    /// How many answers can be read at that turn: those in front of the first that is held.
    fn ready(&self, turn: u64) -> usize
        ensures { result ≡ prefix_len (can_read turn) self.now.answers }
    {
        self.answers
            .iter()
            .take_while(|answer| answer.due <= turn && !answer.bytes.as_slice().is_empty())
            .count()
    }

    /// The member ends it, and handles the request later.
    pub fn postpone(&mut self, turn: u64, late: LateRequest)
        ensures { self.new ≡ record (end_line turn self.old) { late = Some late } }
    {
        self.end(turn);
        self.late = Some(late);
    }

    /// What the next read at that turn can have: what is left of the first answer.
    pub fn front(&self, turn: u64) -> &[u8]
        ensures { result.now ≡ front_at turn self.now }
    {
        match self.answers.first() {
            Some(answer) if answer.due <= turn => answer.bytes.as_slice(),
            _ => &[],
        }
    }

    /// A read took so many bytes of the first answer.
    pub fn give(&mut self, count: usize)
        requires { 0 < length self.old.answers }
        ensures { self.new ≡ give_line count self.old }
    {
        let first = &mut self.answers[0];
        if count < first.bytes.as_slice().len() {
            first.bytes.skip(count);
        } else {
            self.answers.remove(0);
        }
    }

    /// Closes it: nothing comes of it any more.
    pub fn shut(&mut self)
        ensures { self.new ≡ shut_line self.old }
    {
        self.answers.clear();
        self.rest.clear();
        self.ended = true;
        self.live = false;
    }
}
