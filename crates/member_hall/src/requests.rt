//! What becomes of a request: each is done whole, or not at all where memory runs out.
ghost use Rattle.std.specs.Prelude.{◌≡◌, ◌≤◌, ◌<◌, ◌+◌, [], ◌∷◌, ◌++◌, length, drop, Some, None, IfOk, OnOk, OnErr};
ghost use Rattle.msg_wire.specs.Framing.{Framed, frame, message_of};
ghost use Rattle.net_link.specs.declared.event.NetEvent.TheVariants as event;
ghost use Rattle.net_link.specs.declared.event.Effect.TheVariants as effects;
ghost use Rattle.member_core.specs.Keys.{command_name as name_of_command, is_write as writes};
ghost use Rattle.member_core.specs.Members.{effect_of, with_answer};
ghost use Rattle.member_core.specs.Replies.{answer_bytes, reply_of};
ghost use Rattle.member_core.specs.Shares.{IsShared};
ghost use Rattle.member_hall.specs.Lines.{end_line};
ghost use Rattle.member_hall.specs.Requests.{IsFramedBy, due_by, late_scene, id_of as id_of_answer, refusal as refusal_of, request as requested, rule_of, scene};

use crate::Memory;
use crate::answer::Answer;
use crate::late::LateRequest;
use crate::line::Line;
use crate::peer::Peer;
use crate::place::Place;
use crate::refusal::refusal;
use crate::rule::Rule;
use crate::tail::Tail;
use bson_doc::{Bytes, Document};
use member_core::Answered;
use msg_wire::{Message, write};
use net_link::{Effect, EventLog, NetEvent};
use std::alloc::AllocError;

/// A request that stands whole at the front of the line's rest comes to the line's member. It answers how many entries at the front of
/// the member's log stayed as they were.
pub fn request(
    at: Place,
    message: Message,
    peer: &mut Peer,
    line: &mut Line,
    log: &mut EventLog,
) -> Result<usize, Memory>
    requires rest { message.length ≤ length line.old.rest }
    ensures peer { OnOk result (peer.new ≡ (requested at message (scene peer.old line.old log.old.events)).peer) }
    ensures line { OnOk result (line.new ≡ (requested at message (scene peer.old line.old log.old.events)).line) }
    ensures events { OnOk result (log.new.events ≡ (requested at message (scene peer.old line.old log.old.events)).events) }
    ensures framed { OnOk result (IsFramedBy (rule_of peer.old message) at message peer.old.member) }
    ensures kept { IfOk result (λ kept. IsShared kept peer.old.member.log peer.new.member.log) }
    ensures room { log.old.kept ≤ log.new.kept }
    ensures err { OnErr result ((peer.new ≡ peer.old) × (line.new ≡ line.old) × (log.new.events ≡ log.old.events)) }
{
    let rule = if is_write(&message.body) {
        peer.rule()
    } else {
        None
    };
    match rule {
        None => answered(at, &message, peer, line, log),
        Some(Rule::Drop) => {
            peer.follow_rule();
            line.end(at.turn);
            Ok(peer.logged())
        }
        Some(Rule::Mute) => muted(at, &message, peer, line, log),
        Some(Rule::Late { turns }) => {
            peer.follow_rule();
            let due = at.turn.saturating_add(turns);
            line.postpone(at.turn, LateRequest { due, message });
            Ok(peer.logged())
        }
        Some(
            Rule::Refuse {
                code,
                retryable,
                no_writes,
            },
        ) => {
            let bytes = refused(peer, code, retryable, no_writes, at, &message)?;
            refuse(at, &message, bytes, peer, line, log)?;
            Ok(peer.logged())
        }
    }
}

/// The member handles it, and answers it.
fn answered(
    at: Place,
    message: &Message,
    peer: &mut Peer,
    line: &mut Line,
    log: &mut EventLog,
) -> Result<usize, Memory>
    requires rest { message.now.length ≤ length line.old.rest }
    ensures peer { OnOk result (peer.new ≡ record peer.old { member = with_answer peer.old.member message.now.body at.stream at.nth at.lead; holds = drop 1 peer.old.holds }) }
    ensures line { OnOk result (line.new ≡ record line.old {
      count = line.old.count + 1;
      rest = drop message.now.length line.old.rest;
      answers = line.old.answers ++ record { due = due_by at.turn peer.old.holds; bytes = answer_bytes peer.old.member message.now (id_of_answer at.nth) at.stream at.nth at.lead } ∷ [];
    }) }
    ensures events { OnOk result (log.new.events ≡ log.old.events ++ event.Handled at.member at.stream at.nth (effect_of peer.old.member message.now.body at.stream at.nth) ∷ []) }
    ensures framed { OnOk result (IsFramedBy None at message.now peer.old.member) }
    ensures kept { IfOk result (λ kept. IsShared kept peer.old.member.log peer.new.member.log) }
    ensures room { log.old.kept ≤ log.new.kept }
    ensures err { OnErr result ((peer.new ≡ peer.old) × (line.new ≡ line.old) × (log.new.events ≡ log.old.events)) }
{
    let Some(count) = line.count.checked_add(1) else {
        return Err(AllocError);
    };
    line.answers.reserve(1)?;
    let reply = handle(at, message, peer, log)?;
    let due = peer.due(at.turn);
    line.answers.push_reserved(Answer {
        due,
        bytes: Tail::from_bytes(reply.bytes),
    });
    line.rest.skip(message.length as usize);
    line.count = count;
    Ok(reply.kept)
}

/// The member handles it, its answer is lost, and the line ends.
fn muted(
    at: Place,
    message: &Message,
    peer: &mut Peer,
    line: &mut Line,
    log: &mut EventLog,
) -> Result<usize, Memory>
    ensures peer { OnOk result (peer.new ≡ record peer.old { member = with_answer peer.old.member message.now.body at.stream at.nth at.lead; rules = drop 1 peer.old.rules }) }
    ensures line { OnOk result (line.new ≡ record (end_line at.turn line.old) { count = line.old.count + 1 }) }
    ensures events { OnOk result (log.new.events ≡ log.old.events ++ event.Handled at.member at.stream at.nth (effect_of peer.old.member message.now.body at.stream at.nth) ∷ []) }
    ensures kept { IfOk result (λ kept. IsShared kept peer.old.member.log peer.new.member.log) }
    ensures room { log.old.kept ≤ log.new.kept }
    ensures err { OnErr result ((peer.new ≡ peer.old) × (line.new ≡ line.old) × (log.new.events ≡ log.old.events)) }
{
    let Some(count) = line.count.checked_add(1) else {
        return Err(AllocError);
    };
    let lost = handle(at, message, peer, log)?;
    peer.follow_rule();
    line.end(at.turn);
    line.count = count;
    Ok(lost.kept)
}

/// It is refused by these bytes.
fn refuse(
    at: Place,
    message: &Message,
    bytes: Bytes,
    peer: &mut Peer,
    line: &mut Line,
    log: &mut EventLog,
) -> Result<(), Memory>
    requires rest { message.now.length ≤ length line.old.rest }
    ensures peer { OnOk result (peer.new ≡ record peer.old { rules = drop 1 peer.old.rules; holds = drop 1 peer.old.holds }) }
    ensures line { OnOk result (line.new ≡ record line.old {
      count = line.old.count + 1;
      rest = drop message.now.length line.old.rest;
      answers = line.old.answers ++ record { due = due_by at.turn peer.old.holds; bytes = bytes } ∷ [];
    }) }
    ensures events { OnOk result (log.new.events ≡ log.old.events ++ event.Handled at.member at.stream at.nth effects.Refused ∷ []) }
    ensures room { log.old.kept ≤ log.new.kept }
    ensures err { OnErr result ((peer.new ≡ peer.old) × (line.new ≡ line.old) × (log.new.events ≡ log.old.events)) }
{
    let Some(count) = line.count.checked_add(1) else {
        return Err(AllocError);
    };
    line.answers.reserve(1)?;
    log.note(handled(at, Effect::Refused))?;
    peer.follow_rule();
    let due = peer.due(at.turn);
    line.answers.push_reserved(Answer {
        due,
        bytes: Tail::from_bytes(bytes),
    });
    line.rest.skip(message.length as usize);
    line.count = count;
    Ok(())
}

/// A line's late request is handled if its turn has come. Its answer is lost. It answers how many entries at the front of the member's
/// log stayed as they were.
pub fn handle_late(
    at: Place,
    peer: &mut Peer,
    line: &mut Line,
    log: &mut EventLog,
) -> Result<usize, Memory>
    ensures peer { OnOk result (peer.new ≡ (late_scene line.old.late at (scene peer.old line.old log.old.events)).peer) }
    ensures line { OnOk result (line.new ≡ (late_scene line.old.late at (scene peer.old line.old log.old.events)).line) }
    ensures events { OnOk result (log.new.events ≡ (late_scene line.old.late at (scene peer.old line.old log.old.events)).events) }
    ensures kept { IfOk result (λ kept. IsShared kept peer.old.member.log peer.new.member.log) }
    ensures room { log.old.kept ≤ log.new.kept }
    ensures err { OnErr result ((peer.new ≡ peer.old) × (line.new ≡ line.old) × (log.new.events ≡ log.old.events)) }
{
    let Some(late) = &line.late else {
        return Ok(peer.logged());
    };
    if late.due > at.turn {
        return Ok(peer.logged());
    }
    let Some(count) = line.count.checked_add(1) else {
        return Err(AllocError);
    };
    let lost = handle(at, &late.message, peer, log)?;
    line.late = None;
    line.count = count;
    Ok(lost.kept)
}

/// The member handles it, and the history tells it.
fn handle(
    at: Place,
    message: &Message,
    peer: &mut Peer,
    log: &mut EventLog,
) -> Result<Answered, Memory>
    ensures bytes { IfOk result (λ a. a.bytes ≡ answer_bytes peer.old.member message.now (id_of_answer at.nth) at.stream at.nth at.lead) }
    ensures framed { IfOk result (λ a. Framed a.bytes (message_of (id_of_answer at.nth) message.now.id 0 (reply_of peer.old.member message.now.body at.stream at.nth at.lead))) }
    ensures peer { OnOk result (peer.new ≡ record peer.old { member = with_answer peer.old.member message.now.body at.stream at.nth at.lead }) }
    ensures events { OnOk result (log.new.events ≡ log.old.events ++ event.Handled at.member at.stream at.nth (effect_of peer.old.member message.now.body at.stream at.nth) ∷ []) }
    ensures kept { IfOk result (λ a. IsShared a.kept peer.old.member.log peer.new.member.log) }
    ensures room { log.old.kept ≤ log.new.kept }
    ensures err { OnErr result ((peer.new ≡ peer.old) × (log.new.events ≡ log.old.events)) }
{
    log.keep(1)?;
    let answered = peer.member.answer(
        peer.alloc,
        message,
        id_of(at.nth),
        at.stream,
        at.nth,
        at.lead,
    )?;
    log.note_kept(handled(at, answered.effect));
    Ok(answered)
}

/// What the history tells of it.
fn handled(at: Place, effect: Effect) -> NetEvent
    ensures { result ≡ event.Handled at.member at.stream at.nth effect }
{
    NetEvent::Handled {
        member: at.member,
        stream: at.stream,
        nth: at.nth,
        effect,
    }
}

/// The id of the answer to the request of that number.
fn id_of(nth: u64) -> i32
    ensures { result ≡ id_of_answer nth }
{
    (nth % 0x8000_0000) as i32
}

/// The bytes of a refusal.
fn refused(
    peer: &Peer,
    code: i32,
    retryable: bool,
    no_writes: bool,
    at: Place,
    message: &Message,
) -> Result<Bytes, Memory>
    ensures bytes { IfOk result (λ b. b ≡ frame (id_of_answer at.nth) message.now.id 0 (refusal_of code retryable no_writes)) }
    ensures framed { IfOk result (λ b. Framed b (message_of (id_of_answer at.nth) message.now.id 0 (refusal_of code retryable no_writes))) }
{
    let reply = refusal(peer.alloc, code, retryable, no_writes)?;
    // (a refusal is far below the bounds of depth and size, so that memory alone can be wanting)
    write(peer.alloc, id_of(at.nth), message.id, 0, &reply).map_err(|_| AllocError)
}

/// Whether the command writes.
fn is_write(body: &Document) -> bool
    ensures { result ≡ writes body.now }
{
    let name = command_name(body);
    name == "insert" || name == "update" || name == "delete" || name == "findAndModify"
}

/// The command's name: the first name of the document, empty where there is none.
fn command_name(body: &Document) -> &str
    ensures { result.now ≡ name_of_command body.now }
{
    match body.at(0) {
        Some((name, _)) => name.as_str(),
        None => "",
    }
}
