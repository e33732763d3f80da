ghost use Rattle.std.specs.Prelude.{◌≡◌, ◌≢◌, IfOk, OnOk};
ghost use Rattle.desk_wire.specs.declared.answers.Pulled.TheVariants as pulled_as;
ghost use Rattle.cmd_reply.specs.Results.{greeting_result_of, greeting_said};

use crate::{Memory, Waiting};
use bson_doc::ClusterTime;
use cmd_outcome::{ReplyResult, classify, cluster_time};
use desk_wire::Pulled;
use msg_wire::Message;
use std::alloc::{AllocError, Global};

/// What came of a greeting.
#[derive(Drop)]
pub enum GreetingResult {
    /// The server answered it, and did not refuse it.
    Greeted {
        /// The cluster time of its reply, where it has one (Driver Sessions, Gossipping the cluster time).
        time: Option<ClusterTime>,
    },
    /// The server refused it: its reply's `ok` is not one.
    Refused {
        /// The refusal's code, 0 where it has none.
        code: i32,
        /// The cluster time of its reply, where it has one.
        time: Option<ClusterTime>,
    },
    /// The connection ended, failed or was late, or what came is no answer to it.
    Lost {
        /// What came is no message, or answers another request.
        bad: bool,
    },
}

/// What came of the greeting that is waited for, by what the net gave at a moment; None where its reply may still come.
pub fn greeting_result(
    alloc: Global,
    waiting: Waiting,
    moment: u64,
    pulled: Pulled,
) -> Result<Option<GreetingResult>, Memory>
    ensures result { IfOk result (λ r. r ≡ greeting_result_of waiting moment pulled) }
    ensures memory { OnOk result (pulled ≢ pulled_as.Memory) }
{
    let bad = match pulled {
        Pulled::Whole(message) => {
            let read = read_greeting(alloc, waiting.id, &message)?;
            return Ok(Some(read));
        }
        Pulled::NotYet => {
            if moment < waiting.limit {
                return Ok(None);
            }
            false
        }
        Pulled::End => false,
        Pulled::Fault => false,
        Pulled::Bad(_) => true,
        Pulled::Memory => return Err(AllocError),
    };
    Ok(Some(GreetingResult::Lost { bad }))
}

/// What a message says of a greeting that had that id.
fn read_greeting(alloc: Global, id: i32, message: &Message) -> Result<GreetingResult, Memory>
    ensures { IfOk result (λ r. r ≡ greeting_said id message.now) }
{
    if message.to != id {
        return Ok(GreetingResult::Lost { bad: true });
    }
    let time = cluster_time(alloc, &message.body)?;
    match classify(&message.body).result {
        ReplyResult::Error { code } => Ok(GreetingResult::Refused { code, time }),
        _ => Ok(GreetingResult::Greeted { time }),
    }
}
