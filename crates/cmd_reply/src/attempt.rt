ghost use Rattle.std.specs.Prelude.{◌≡◌, ◌≢◌, IfOk, OnOk};
ghost use Rattle.desk_wire.specs.declared.answers.Pulled.TheVariants as pulled_as;
ghost use Rattle.cmd_reply.specs.Results.{attempt_result_of, reply_result_of};

use crate::place::{RESPONSE_TO, place_of};
use crate::{Memory, Waiting};
use bson_doc::ClusterTime;
use cmd_outcome::{classify, cluster_time};
use desk_wire::Pulled;
use msg_wire::Message;
use std::alloc::{AllocError, Global};
use write_retry::AttemptEnd;

/// How an attempt ended, and the cluster time that its reply carried.
#[derive(Drop)]
pub struct AttemptResult {
    /// How it ended.
    pub end: AttemptEnd,
    /// The cluster time, where a reply came that has one (Driver Sessions, Gossipping the cluster time).
    pub time: Option<ClusterTime>,
}

/// How the attempt ended whose request is waited for, by what the net gave at a moment; None where its reply may still come.
pub fn attempt_result(
    alloc: Global,
    waiting: Waiting,
    moment: u64,
    pulled: Pulled,
) -> Result<Option<AttemptResult>, Memory>
    ensures result { IfOk result (λ r. r ≡ attempt_result_of waiting moment pulled) }
    ensures memory { OnOk result (pulled ≢ pulled_as.Memory) }
{
    let end = match pulled {
        Pulled::Whole(message) => {
            let read = read_reply(alloc, waiting.id, &message)?;
            return Ok(Some(read));
        }
        Pulled::NotYet => {
            if moment < waiting.limit {
                return Ok(None);
            }
            AttemptEnd::TimedOut
        }
        Pulled::End => AttemptEnd::Cut,
        Pulled::Fault => AttemptEnd::Fault,
        Pulled::Bad(fault) => AttemptEnd::Bad {
            at: place_of(fault),
        },
        Pulled::Memory => return Err(AllocError),
    };
    Ok(Some(AttemptResult { end, time: None }))
}

/// What a message says of an attempt whose request had that id.
fn read_reply(alloc: Global, id: i32, message: &Message) -> Result<AttemptResult, Memory>
    ensures { IfOk result (λ r. r ≡ reply_result_of id message.now) }
{
    if message.to != id {
        return Ok(AttemptResult {
            end: AttemptEnd::Bad { at: RESPONSE_TO },
            time: None,
        });
    }
    let time = cluster_time(alloc, &message.body)?;
    let end = AttemptEnd::Replied(classify(&message.body));
    Ok(AttemptResult { end, time })
}
