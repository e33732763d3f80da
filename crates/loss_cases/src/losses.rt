use bson_doc::{Memory, Rows};
use member_hall::{Act, Planned};
use std::alloc::Global;

/// The member that is elected when a run begins, and another one.
const FIRST: u32 = 0;

const SECOND: u32 = 1;

/// The code of a refusal: ShutdownInProgress.
const CODE: i32 = 91;

/// How many turns later a late request is handled.
const LATE: u64 = 30;

/// How many turns later an answer comes that is held for a while, and one that comes behind the timeout of its socket.
const SHORT_HOLD: u64 = 3;

const LONG_HOLD: u64 = 60;

/// For how many turns a member is dead, and for how many two members take writes.
const DEAD: u64 = 12;

const TWO_LEAD: u64 = 40;

/// How many bytes a read gives of answers that come in pieces.
const PIECE: u32 = 16;

/// How a message, an answer or a member is lost, or comes in another way than it should.
#[derive(Clone, Copy, Debug)]
pub enum Loss {
    /// Nothing is lost.
    Nothing,
    /// A write is never handled.
    Write,
    /// A write is handled, and its answer is lost.
    Answer,
    /// The stream ends, and the write is handled later.
    LateWrite,
    /// An answer comes later, within the timeout of its socket.
    HeldAnswer,
    /// An answer comes behind that timeout.
    LateAnswer,
    /// A write is refused, by an error with these labels.
    Refusal { retryable: bool, no_writes: bool },
    /// The member is dead for a while.
    Death,
    /// Answers come in pieces.
    Pieces,
    /// Another member is elected, and the first one follows it.
    Election,
    /// Another member is elected, and the first one takes writes for a while.
    TwoPrimaries,
}

/// All but the loss of nothing.
pub const LOSSES: [Loss; 13] = [
    Loss::Write,
    Loss::Answer,
    Loss::LateWrite,
    Loss::HeldAnswer,
    Loss::LateAnswer,
    Loss::Refusal {
        retryable: false,
        no_writes: false,
    },
    Loss::Refusal {
        retryable: true,
        no_writes: false,
    },
    Loss::Refusal {
        retryable: false,
        no_writes: true,
    },
    Loss::Refusal {
        retryable: true,
        no_writes: true,
    },
    Loss::Death,
    Loss::Pieces,
    Loss::Election,
    Loss::TwoPrimaries,
];

impl Loss {
    /// What it is called.
    pub fn name(self) -> &'static str {
        match self {
            Loss::Nothing => "nothing",
            Loss::Write => "write",
            Loss::Answer => "answer",
            Loss::LateWrite => "late-write",
            Loss::HeldAnswer => "held-answer",
            Loss::LateAnswer => "late-answer",
            Loss::Refusal {
                retryable,
                no_writes,
            } => refusal_name(retryable, no_writes),
            Loss::Death => "death",
            Loss::Pieces => "pieces",
            Loss::Election => "election",
            Loss::TwoPrimaries => "two-primaries",
        }
    }
}

/// What a refusal with these labels is called.
fn refusal_name(retryable: bool, no_writes: bool) -> &'static str {
    match (retryable, no_writes) {
        (false, false) => "refusal",
        (true, false) => "refusal-retryable",
        (false, true) => "refusal-no-writes",
        (true, true) => "refusal-retryable-no-writes",
    }
}

/// The plan by which that is lost at a turn.
pub fn plan(alloc: Global, loss: Loss, turn: u64) -> Result<Rows<Planned>, Memory> {
    let mut acts = Rows::new(alloc);
    if let Some(act) = first_act(loss) {
        acts.push(Planned { turn, act })?;
    }
    if let Some((turns, act)) = second_act(loss) {
        let turn = turn.saturating_add(turns);
        acts.push(Planned { turn, act })?;
    }
    Ok(acts)
}

/// What happens at the turn.
fn first_act(loss: Loss) -> Option<Act> {
    let host = FIRST;
    match loss {
        Loss::Nothing => None,
        Loss::Write => Some(Act::Drop { host }),
        Loss::Answer => Some(Act::Mute { host }),
        Loss::LateWrite => Some(Act::Late { host, turns: LATE }),
        Loss::HeldAnswer => Some(Act::Hold {
            host,
            turns: SHORT_HOLD,
        }),
        Loss::LateAnswer => Some(Act::Hold {
            host,
            turns: LONG_HOLD,
        }),
        Loss::Refusal {
            retryable,
            no_writes,
        } => Some(Act::Refuse {
            host,
            code: CODE,
            retryable,
            no_writes,
        }),
        Loss::Death => Some(Act::Dead { host }),
        Loss::Pieces => Some(Act::Split { host, bytes: PIECE }),
        Loss::Election | Loss::TwoPrimaries => Some(Act::Elect { host: SECOND }),
    }
}

/// What happens later, and by how many turns.
fn second_act(loss: Loss) -> Option<(u64, Act)> {
    let host = FIRST;
    match loss {
        Loss::Death => Some((DEAD, Act::Alive { host })),
        Loss::Election => Some((0, Act::Follow { host })),
        Loss::TwoPrimaries => Some((TWO_LEAD, Act::Follow { host })),
        _ => None,
    }
}
