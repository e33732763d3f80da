ghost use Rattle.std.specs.Prelude.{◌≡◌, true};
ghost use Rattle.write_retry.specs.Machine.{after, after_first, allows as allows_event, chosen, ended, failed, new_op};
ghost use Rattle.write_retry.specs.Verdict.{given};

use crate::allowed::{is_check_out, is_look, is_read, is_send};
use crate::{AttemptEnd, Next, OpEvent, Outcome};
use std::marker::Model;

/// One command on its way: at most two attempts (Retryable Writes, Executing Retryable Write Commands). To contracts it is
/// the command's kind, whether it drew a transaction number, how its first attempt ended, and what is to be done next. No
/// call takes memory.
///
/// ```text
///             Chosen            Lent          Sent          the reply, or none
///   Select ------------> CheckOut ----> Send ------> Read ---------------------+
///    | ^                   |             |                                     |
///    | |                   +-------------+------ the attempt ended ------------+
///    | |                                                                       |
///    | +-- the first attempt ended, and may be repeated -----------------------+
///    |                                                                         |
///    +-- NoServer, Incompatible, a second server without a number --> Answer <-+
/// ```
#[derive(Debug, Drop)]
pub struct OpMachine {
    write: bool,
    retryable: bool,
    drew: bool,
    first: Option<AttemptEnd>,
    next: Next,
}

impl Model for OpMachine {
    ghost use Rattle.write_retry.specs.Machine.{Op};
    ghost use Rattle.write_retry.specs.Inside.{op_of};

    ghost Value = { Op };

    ghost view = { op_of };
}

impl OpMachine {
    /// A command that nothing was done for: a server is to be selected. `write` says that it writes, `retryable` that it is
    /// a write that may be repeated (Retryable Writes, supported write operations).
    pub fn new(write: bool, retryable: bool) -> OpMachine
        ensures new { result ≡ new_op write retryable }
    {
        OpMachine {
            write,
            retryable,
            drew: false,
            first: None,
            next: Next::Select,
        }
    }

    /// What is to be done next.
    pub fn next(&self) -> Next
        ensures next { result ≡ self.now.next }
    {
        self.next
    }

    /// Whether the command drew a transaction number, which each of its attempts carries (Retryable Writes, txnNumber).
    pub fn drew(&self) -> bool
        ensures drew { result ≡ self.now.drew }
    {
        self.drew
    }

    /// Whether the event answers what is to be done next.
    pub fn allows(&self, event: &OpEvent) -> bool
        ensures allowed { result ≡ allows_event self.now.next event.now }
    {
        match self.next {
            Next::Select => is_look(*event),
            Next::CheckOut { host } => is_check_out(host, *event),
            Next::Send => is_send(*event),
            Next::Read => is_read(*event),
            Next::Answer(_) => false,
        }
    }

    /// Takes an event in that [`OpMachine::allows`], and says what is to be done next.
    pub fn on(&mut self, event: OpEvent) -> Next
        requires allowed { allows_event self.old.next event ≡ true }
        ensures goes { self.new ≡ after self.old event }
        ensures next { result ≡ self.new.next }
    {
        match event {
            OpEvent::Chosen { host, numbered } => self.choose(host, numbered),
            OpEvent::NoServer => self.fail(Outcome::NoServer),
            OpEvent::Incompatible { host, min, max } => {
                self.fail(Outcome::Incompatible { host, min, max })
            }
            OpEvent::Lent => self.next = Next::Send,
            OpEvent::Sent => self.next = Next::Read,
            OpEvent::Unsent(unsent) => self.end(AttemptEnd::Unsent(unsent)),
            OpEvent::Replied(reading) => self.end(AttemptEnd::Replied(reading)),
            OpEvent::Cut => self.end(AttemptEnd::Cut),
            OpEvent::Fault => self.end(AttemptEnd::Fault),
            OpEvent::TimedOut => self.end(AttemptEnd::TimedOut),
            OpEvent::Bad { at } => self.end(AttemptEnd::Bad { at }),
        }
        self.next
    }

    /// A server was chosen: an attempt begins, unless it is the second one and draws no number there.
    fn choose(&mut self, host: u32, numbered: bool)
        ensures { self.new ≡ chosen host numbered self.old }
    {
        match self.first {
            None => {
                self.drew = self.write && self.retryable && numbered;
                self.next = Next::CheckOut { host };
            }
            Some(_) if numbered => self.next = Next::CheckOut { host },
            Some(first) => self.next = Next::Answer(first.said()),
        }
    }

    /// A selection chose no server: that is the answer, unless an attempt was made.
    fn fail(&mut self, outcome: Outcome)
        ensures { self.new ≡ failed outcome self.old }
    {
        self.next = match self.first {
            None => Next::Answer(outcome),
            Some(first) => Next::Answer(first.said()),
        };
    }

    /// An attempt ended: it may be repeated once.
    fn end(&mut self, end: AttemptEnd)
        ensures { self.new ≡ ended end self.old }
    {
        match self.first {
            None => {
                self.first = Some(end);
                self.next = next_behind(self.drew, end);
            }
            Some(first) => self.next = Next::Answer(said_of_two(first, end)),
        }
    }
}

/// What is to be done behind a first attempt: it is repeated where the command drew a number and the end allows it.
fn next_behind(drew: bool, end: AttemptEnd) -> Next
    ensures { result ≡ after_first drew end }
{
    if drew && end.is_again() {
        Next::Select
    } else {
        Next::Answer(end.said())
    }
}

/// What two attempts come to: what the second one says, unless it says less than the first.
fn said_of_two(first: AttemptEnd, second: AttemptEnd) -> Outcome
    ensures { result ≡ given first second }
{
    if second.is_lesser() {
        first.said()
    } else {
        second.said()
    }
}
