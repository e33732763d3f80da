//! How a member answers a request.
ghost use Rattle.std.specs.Prelude.{◌≡◌, ◌==◌, ◌++◌, ◌∷◌, [], length, IfOk, OnOk, OnErr, if◌then◌else◌};
ghost use Rattle.msg_wire.specs.Framing.{Framed, frame, message_of};
ghost use Rattle.member_core.specs.Inside.{IsSmall};
ghost use Rattle.member_core.specs.Keys.{is_write as writes};
ghost use Rattle.member_core.specs.Logs.{times};
ghost use Rattle.member_core.specs.Members.{effect_of as effect_of_request, entries, logged, marked, takes_writes as takes_any, with_answer, write_effect};
ghost use Rattle.net_link.specs.declared.event.Effect.TheVariants.{Added};
ghost use Rattle.member_core.specs.Shares.{IsShared};
ghost use Rattle.member_core.specs.Replies.{answer_bytes, read_reply, reply_by, reply_of};

use crate::request::{command_name, is_write, key_of};
use crate::write_reply::{find_reply, plain_ok, refusal, write_result};
use crate::{Key, LogEntry, Member, Memory};
use bson_doc::{Bytes, Document};
use bson_wire::EncodeFault;
use msg_wire::{Message, write};
use net_link::Effect;
use std::alloc::{AllocError, Global};

/// What a member answered to a request.
#[derive(Debug, Drop)]
pub struct Answered {
    /// The bytes of the reply, which is one message.
    pub bytes: Bytes,
    /// What the request did to the member's log.
    pub effect: Effect,
    /// How many entries at the front of the log stayed as they were, marks too.
    pub kept: usize,
}

impl Member {
    /// Answers the stream's request of that number, counted from 0, by a message of that id. `lead` says that this member is
    /// the last elected one: it alone acknowledges writes. A write with a new key is added to the log, and one whose key is
    /// there is not added again; where the member takes no writes it is refused.
    pub fn answer(
        &mut self,
        alloc: Global,
        message: &Message,
        id: i32,
        stream: u64,
        nth: u64,
        lead: bool,
    ) -> Result<Answered, Memory>
        ensures effect { IfOk result (λ a. a.effect ≡ effect_of_request self.old message.now.body stream nth) }
        ensures bytes { IfOk result (λ a. a.bytes ≡ answer_bytes self.old message.now id stream nth lead) }
        ensures framed { IfOk result (λ a. Framed a.bytes (message_of id message.now.id 0 (reply_of self.old message.now.body stream nth lead))) }
        ensures member { OnOk result (self.new ≡ with_answer self.old message.now.body stream nth lead) }
        ensures kept { IfOk result (λ a. IsShared a.kept self.old.log self.new.log) }
        ensures err { OnErr result (self.new ≡ self.old) }
    {
        let key = key_of(&message.body, stream, nth);
        let effect = self.effect_of(&message.body, &key);
        let reply = self.reply(alloc, command_name(&message.body), lead, effect)?;
        let bytes = framed(alloc, id, message.id, &reply)?;
        let kept = self.note(alloc, LogEntry { key, stream, nth }, lead, effect)?;
        Ok(Answered {
            bytes,
            effect,
            kept,
        })
    }

    /// What a request with that document and key does.
    fn effect_of(&self, body: &Document, key: &Key) -> Effect
        ensures { result ≡ (if writes body.now then write_effect (takes_any self.now) (times key.now (entries self.now.log)) else Effect.Nothing) }
    {
        if !is_write(body) {
            Effect::Nothing
        } else if !self.takes_writes() {
            Effect::Refused
        } else if self.lacks(key) {
            Effect::Added
        } else {
            Effect::Known
        }
    }

    /// The document of the answer to a command of that name. It has a message.
    fn reply(
        &self,
        alloc: Global,
        name: &str,
        lead: bool,
        effect: Effect,
    ) -> Result<Document, Memory>
        ensures document { IfOk result (λ d. d ≡ reply_by self.now name.now lead effect) }
        ensures small { IfOk result (λ d. IsSmall d) }
    {
        // (a field is named so that the bound, which the member keeps, is known here)
        let _ = &self.hosts;
        let document = self.reply_by(alloc, name, lead, effect)?;
        Ok(document)
    }

    /// The same document, by its kind.
    fn reply_by(
        &self,
        alloc: Global,
        name: &str,
        lead: bool,
        effect: Effect,
    ) -> Result<Document, Memory>
        ensures { IfOk result (λ d. d ≡ reply_by self.now name.now lead effect) }
    {
        match effect {
            Effect::Added => write_result(alloc, name == "update", lead),
            Effect::Known => write_result(alloc, name == "update", lead),
            Effect::Refused => refusal(alloc),
            Effect::Nothing => self.read_reply(alloc, name),
        }
    }

    /// The document of the answer to a command that writes nothing.
    fn read_reply(&self, alloc: Global, name: &str) -> Result<Document, Memory>
        ensures { IfOk result (λ d. d ≡ read_reply self.now name.now) }
    {
        if name == "hello" {
            self.hello(alloc)
        } else if name == "find" {
            find_reply(alloc)
        } else {
            plain_ok(alloc)
        }
    }

    /// Keeps what a request did, and answers how many entries at the front of the log stayed as they were.
    fn note(
        &mut self,
        alloc: Global,
        entry: LogEntry,
        lead: bool,
        effect: Effect,
    ) -> Result<usize, Memory>
        requires lacks { effect ≡ Added → times entry.key (entries self.old.log) ≡ 0 }
        ensures ok { OnOk result (self.new ≡ record self.old { log = logged lead entry effect self.old.log }) }
        ensures kept { IfOk result (λ kept. IsShared kept self.old.log self.new.log) }
        ensures err { OnErr result (self.new ≡ self.old) }
    {
        match effect {
            Effect::Added => self.add(alloc, entry, lead),
            Effect::Known => {
                if lead {
                    return Ok(self.mark(&entry.key));
                }
                Ok(self.count())
            }
            Effect::Refused => Ok(self.count()),
            Effect::Nothing => Ok(self.count()),
        }
    }

    /// How many entries its log has.
    fn count(&self) -> usize
        ensures { result ≡ length self.now.log }
    {
        self.log.len()
    }

    /// Whether no entry has the key.
    fn lacks(&self, key: &Key) -> bool
        ensures { result ≡ (times key.now (entries self.now.log) == 0) }
    {
        self.log.lacks(key)
    }

    /// Adds an entry behind the others.
    fn add(&mut self, alloc: Global, entry: LogEntry, acked: bool) -> Result<usize, Memory>
        requires lacks { times entry.key (entries self.old.log) ≡ 0 }
        ensures ok { OnOk result (self.new ≡ record self.old { log = self.old.log ++ (entry, acked) ∷ [] }) }
        ensures kept { IfOk result (λ kept. IsShared kept self.old.log self.new.log) }
        ensures err { OnErr result (self.new ≡ self.old) }
    {
        let kept = self.log.len();
        self.log.add(alloc, entry, acked)?;
        Ok(kept)
    }

    /// Marks the key's entry as acknowledged.
    fn mark(&mut self, key: &Key) -> usize
        ensures member { self.new ≡ record self.old { log = marked key.now self.old.log } }
        ensures kept { IsShared result self.old.log self.new.log }
    {
        self.log.mark(key)
    }
}

/// The bytes of a message with that document.
fn framed(alloc: Global, id: i32, to: i32, document: &Document) -> Result<Bytes, Memory>
    requires { IsSmall document.now }
    ensures bytes { IfOk result (λ bytes. bytes ≡ frame id to 0 document.now) }
    ensures framed { IfOk result (λ bytes. Framed bytes (message_of id to 0 document.now)) }
{
    match write(alloc, id, to, 0, document) {
        Ok(bytes) => Ok(bytes),
        Err(EncodeFault::Memory) => Err(AllocError),
        Err(EncodeFault::Deep) => unreachable!(),
        Err(EncodeFault::Long) => unreachable!(),
    }
}
