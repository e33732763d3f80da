//! Laws of members' logs, each the contract of a function that does nothing.

ghost use Rattle.std.specs.Prelude.{◌≡◌, ◌==◌, ℕ, Bool, true, false, List, [], ◌∷◌, ◌++◌, Some, slice_get};
ghost use Rattle.bson_doc.specs.declared.value.Document.{Document};
ghost use Rattle.msg_wire.specs.Messages.{messages};
ghost use Rattle.msg_wire.specs.declared.message.Message.{Message};
ghost use Rattle.net_link.specs.declared.event.NetEvent.{NetEvent};
ghost use Rattle.member_core.specs.Honest.{Fits, IsHonest, IsPlain, MayFollow, says_ok};
ghost use Rattle.member_core.specs.Keys.{is_write};
ghost use Rattle.member_core.specs.Logs.{key_at, update_at, set_after};
ghost use Rattle.member_core.specs.Members.{MemberState, effect_of, with_answer, with_election, with_log};
ghost use Rattle.member_core.specs.Once.{AtMostOnce, Keeps};
ghost use Rattle.member_core.specs.Replies.{reply_of};
ghost use Rattle.member_core.specs.Standing.{StandAs, last_log};

use net_link::NetEvent;

/// Whatever answers are lost, whichever requests come late or again and whoever is elected: in an honest history no log has
/// a key twice, and what the last elected member answered plainly stays in the log of each that is elected later.
pub fn logs()
    ensures once { (history : List NetEvent) → IsHonest history → AtMostOnce history }
    ensures keeps { (history : List NetEvent) → IsHonest history → Keeps history }
{}

/// The empty history is honest, and an honest one may go on with an event that may follow it.
pub fn honest_histories_grow()
    ensures none { IsHonest [] }
    ensures more { (history : List NetEvent) (event : NetEvent)
        → IsHonest history → MayFollow history event → IsHonest (history ++ event ∷ []) }
{}

/// Members that stand as the history says still do so behind an answer, an election, a following, and the event that tells
/// it. An answer's effect is one that the member may have, and it says ok to a write only where it is the last elected
/// member's and plain.
pub fn members_stand_as_told()
    ensures fits { (members : ℕ → MemberState) (history : List NetEvent) (m s n : ℕ) (request : Message)
        → StandAs members (set_after history) → slice_get (messages ((set_after history).out s)) n ≡ Some request
        → Fits (set_after history) m (key_at (set_after history) s n) (is_write request.body) (effect_of (members m) request.body s n) }
    ensures ok { (m : MemberState) (body : Document) (s n : ℕ) (lead : Bool)
        → is_write body ≡ true → says_ok (reply_of m body s n lead) ≡ true
        → (lead ≡ true) × IsPlain (effect_of m body s n) }
    ensures answer { (members : ℕ → MemberState) (history : List NetEvent) (m s n : ℕ) (request : Message)
        → StandAs members (set_after history) → slice_get (messages ((set_after history).out s)) n ≡ Some request
        → StandAs (update_at members m (with_answer (members m) request.body s n ((set_after history).last == m)))
        (set_after (history ++ NetEvent.Handled m s n (effect_of (members m) request.body s n) ∷ [])) }
    ensures elect { (members : ℕ → MemberState) (history : List NetEvent) (m number : ℕ) → StandAs members (set_after history)
        → StandAs (update_at members m (with_election (members m) (last_log members (set_after history) m) number))
        (set_after (history ++ NetEvent.Elected m ∷ [])) }
    ensures follow { (members : ℕ → MemberState) (history : List NetEvent) (m : ℕ)
        → StandAs members (set_after history) → ((set_after history).last == m) ≡ false
        → StandAs (update_at members m (with_log (members m) (members (set_after history).last).log))
        (set_after (history ++ NetEvent.Followed m ∷ [])) }
{}
