ghost use Rattle.std.specs.Prelude.{◌≡◌};
ghost use Rattle.wired_trail.specs.Inside.{pending_behind, queued_on, told_on};

use desk_wire::Pulled;

/// What is pending on a stream that is in use.
#[derive(Clone, Copy, Debug, PartialEq, Eq, Drop)]
pub(crate) enum Pending {
    /// Each request on it was answered.
    Nothing,
    /// The request of that id waits for its answer.
    Reply { id: i32 },
    /// A message came for its request, and no entry tells of it yet.
    Message,
    /// Its last request has no answer, or memory was wanting for that: nothing more is asked or read there.
    Over,
}

impl Pending {
    /// What is pending behind a turn by which the request of that id got this answer.
    pub(crate) fn behind(answer: &Pulled, id: i32) -> Pending
        ensures { result ≡ pending_behind answer.now id }
    {
        match answer {
            Pulled::Whole(_) => Pending::Message,
            Pulled::NotYet => Pending::Reply { id },
            Pulled::End | Pulled::Fault | Pulled::Bad(_) | Pulled::Memory => Pending::Over,
        }
    }

    /// What is pending once the request of that id was queued: its answer, where nothing else was.
    pub(crate) fn queued(self, id: i32) -> Pending
        ensures { result ≡ queued_on id self }
    {
        match self {
            Pending::Nothing => Pending::Reply { id },
            Pending::Reply { .. } | Pending::Message | Pending::Over => Pending::Over,
        }
    }

    /// What is pending once an entry told what became of the last request: nothing, where that was answered by the message that came.
    pub(crate) fn told(self, answered: bool) -> Pending
        ensures { result ≡ told_on answered self }
    {
        match self {
            Pending::Message if answered => Pending::Nothing,
            Pending::Nothing | Pending::Reply { .. } | Pending::Message | Pending::Over => {
                Pending::Over
            }
        }
    }
}
