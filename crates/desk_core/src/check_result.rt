ghost use Rattle.std.specs.Prelude.{◌≡◌, ◌≢◌, ◌≤◌, ◌+◌, ◌^◌, ◌<◌, None, IfOk, IfSome, OnOk, length, IfNone};
ghost use Rattle.topo_rules.specs.Laws.{listed_by};
ghost use Rattle.desk_wire.specs.declared.answers.Pulled.TheVariants as pulled_as;
ghost use Rattle.cmd_outcome.specs.Replies.{result_in};
ghost use Rattle.cmd_outcome.specs.declared.reading.ReplyResult.TheVariants as reply_of;
ghost use Rattle.desk_trail.specs.Owed.{IsReplyOf};
ghost use Rattle.topo_rules.specs.declared.event.TopoEvent.TheVariants as event_as;
ghost use Rattle.desk_core.specs.Ends.{IsEndBy, IsOfReply, IsWhole};
ghost use Rattle.desk_core.specs.Hearing.{Carries, SaysCheck};
ghost use Rattle.wired_trail.specs.Wired.{IsNoError};

use crate::Memory;
use bson_doc::{ClusterTime, Document};
use cmd_outcome::{ReplyResult, classify, cluster_time};
use desk_trail::CheckHow;
use desk_wire::Pulled;
use hello_reply::{ReplyFault, describe};
use host_name::Host;
use msg_wire::Message;
use std::alloc::{AllocError, Global};
use topo_rules::TopoEvent;

/// From so many hosts on that were named, no reply to a check is taken in (this product's own: so that a number is always left
/// for a host).
const MOST_HOSTS: usize = 4_294_000_000;

/// The place of responseTo in a message.
const RESPONSE_TO: u32 = 8;

/// A check that runs: of which server, since when, until when its answer is waited for, the id of its hello, and how many
/// hosts had been named. Moments are microseconds.
#[derive(Clone, Copy, Drop)]
pub struct Running<'a> {
    pub host: &'a Host,
    pub began: u64,
    pub limit: u64,
    pub hello: i32,
    pub hosts: usize,
}

/// How a check ended, the event that is offered of it, and the cluster time that its reply carried.
#[derive(Drop)]
pub struct CheckResult {
    pub how: CheckHow,
    pub event: TopoEvent,
    pub time: Option<ClusterTime>,
}

/// The end of a check by what the net gave; None where its answer is still waited for.
pub fn result_of(
    alloc: Global,
    check: Running<'_>,
    moment: u64,
    pulled: Pulled,
) -> Result<Option<CheckResult>, Memory>
    requires hosts { check.hosts ≤ 2 ^ 32 }
    ensures ends { IfOk result (λ r. IfSome r (λ end. IsEndBy check.entry.host.now check.entry.began check.entry.limit moment pulled end.event end.how)) }
    ensures timed { IfOk result (λ r. IfSome r (λ end. IsOfReply end.how end.time)) }
    ensures few { IfOk result (λ r. IfSome r (λ end. check.entry.hosts + length (listed_by end.event) ≤ 2 ^ 32)) }
    ensures waits { IfOk result (λ r. IfNone r ((pulled ≡ pulled_as.NotYet) × (moment < check.entry.limit))) }
    ensures says { IfOk result (λ r. IfSome r (λ end. SaysCheck pulled check.entry.hello check.entry.hosts end.how end.event)) }
    ensures carries { IfOk result (λ r. IfSome r (λ end. Carries pulled end.time)) }
    ensures memory { OnOk result (pulled ≢ pulled_as.Memory) }
{
    let how = match pulled {
        Pulled::Whole(message) => {
            let read = read(alloc, check, moment, &message)?;
            return Ok(Some(read));
        }
        Pulled::NotYet => {
            if moment < check.limit {
                return Ok(None);
            }
            CheckHow::Late
        }
        Pulled::End => CheckHow::Cut,
        Pulled::Fault => CheckHow::Fault,
        Pulled::Bad(fault) => CheckHow::Bad {
            at: fault.place().unwrap_or(0),
        },
        Pulled::Memory => return Err(AllocError),
    };
    let broken = broken(alloc, check.host, how, None)?;
    Ok(Some(broken))
}

/// A check that ended otherwise than by a hello reply.
pub fn broken(
    alloc: Global,
    host: &Host,
    how: CheckHow,
    time: Option<ClusterTime>,
) -> Result<CheckResult, Memory>
    ensures { IfOk result (λ end. end ≡ record { how = how; event = event_as.Broken host.now None; time = time }) }
{
    let host = host.copy(alloc)?;
    Ok(CheckResult {
        how,
        event: TopoEvent::Broken {
            host,
            generation: None,
        },
        time,
    })
}

/// The code of an error reply; None where the reply is none.
fn error_code(reply: &Document) -> Option<i32>
    ensures code { IfSome result (λ code. result_in reply.now ≡ reply_of.Error code) }
    ensures none { IfNone result (IsNoError (result_in reply.now)) }
{
    match classify(reply).result {
        ReplyResult::Error { code } => Some(code),
        ReplyResult::Ok { .. } | ReplyResult::WriteErrors { .. } | ReplyResult::Concern { .. } => {
            None
        }
    }
}

/// What a message says that came while the check ran.
fn read(
    alloc: Global,
    check: Running<'_>,
    moment: u64,
    message: &Message,
) -> Result<CheckResult, Memory>
    requires hosts { check.hosts ≤ 2 ^ 32 }
    ensures ends { (answer : Pulled) → IsWhole answer → IfOk result (λ end. IsEndBy check.entry.host.now check.entry.began check.entry.limit moment answer end.event end.how) }
    ensures timed { IfOk result (λ end. IsOfReply end.how end.time) }
    ensures few { IfOk result (λ end. check.entry.hosts + length (listed_by end.event) ≤ 2 ^ 32) }
    ensures says { IfOk result (λ end. SaysCheck (pulled_as.Whole message.now) check.entry.hello check.entry.hosts end.how end.event) }
    ensures carries { IfOk result (λ end. Carries (pulled_as.Whole message.now) end.time) }
{
    if message.to != check.hello {
        return broken(alloc, check.host, CheckHow::Bad { at: RESPONSE_TO }, None);
    }
    let time = cluster_time(alloc, &message.body)?;
    if let Some(code) = error_code(&message.body) {
        return broken(alloc, check.host, CheckHow::Refused { code }, time);
    }
    match describe(alloc, &message.body, check.host) {
        Ok(description) if check.hosts < MOST_HOSTS => {
            let sample = moment.saturating_sub(check.began);
            Ok(CheckResult {
                how: CheckHow::Reply { sample },
                event: TopoEvent::Reply {
                    description,
                    sample,
                },
                time,
            })
        }
        Ok(_) => broken(alloc, check.host, CheckHow::Refused { code: 0 }, time),
        Err(ReplyFault::Memory) => Err(AllocError),
        Err(ReplyFault::Field(_) | ReplyFault::Many { .. }) => {
            broken(alloc, check.host, CheckHow::Refused { code: 0 }, time)
        }
    }
}
