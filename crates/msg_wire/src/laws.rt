//! Laws of framed messages, each the contract of a function that does nothing.

ghost use Rattle.std.specs.Prelude.{◌≡◌, ◌≢◌, ◌↔◌, ◌<◌, ◌≤◌, ◌^◌, ℕ, ℤ, List, [], ◌++◌, length, take, false, Some, None, Ok, FitsSigned};
ghost use Rattle.std.specs.Int.{w32};
ghost use Rattle.bson_doc.specs.declared.value.Document.{Document};
ghost use Rattle.bson_doc.specs.wire.Spelling.{Spells};
ghost use Rattle.bson_doc.specs.wire.Spelled.{spelled};
ghost use Rattle.msg_wire.specs.Asking.{AsksFor, IsWhole};
ghost use Rattle.msg_wire.specs.Flags.{refused_bit, is_set};
ghost use Rattle.msg_wire.specs.Framing.{Framed, frame, message_of};
ghost use Rattle.msg_wire.specs.Fronts.{IsFront};
ghost use Rattle.msg_wire.specs.Limits.{least_message, most_message, op_msg};
ghost use Rattle.msg_wire.specs.Messages.{Begins, IsParted, behind_messages, messages};
ghost use Rattle.msg_wire.specs.Places.{flag_bits_at, message_length_at, op_code_at, place_of};
ghost use Rattle.msg_wire.specs.Reading.{number_at, signed_at, need_of, read, flaw};
ghost use Rattle.msg_wire.specs.declared.message.Message.{Message};

use crate::MsgFault;
use bson_wire::BsonFault;

/// Bytes frame at most one message.
pub fn one_message()
    ensures { (bytes : List ℕ) (a b : Message) → Framed bytes a → Framed bytes b → a ≡ b }
{}

/// No framed message begins another one.
pub fn no_prefix()
    ensures { (bytes more : List ℕ) (a b : Message)
        → Framed bytes a → Framed (bytes ++ more) b → more ≡ [] }
{}

/// A framed message has at least 26 bytes.
pub fn at_least()
    ensures { (bytes : List ℕ) (message : Message) → Framed bytes message → least_message ≤ length bytes }
{}

/// Bytes have no flaw exactly where they begin with a framed message.
pub fn flawless()
    ensures { (bytes : List ℕ)
        → flaw bytes ≡ None ↔ (n : ℕ) × (message : Message) × Framed (take n bytes) message }
{}

/// What is framed so is read again, whatever follows.
pub fn read_again()
    ensures { (bytes more : List ℕ) (message : Message)
        → Framed bytes message → read (bytes ++ more) ≡ Ok message }
{}

/// The bytes of a message that fits are framed, and so they are read again, whatever follows.
pub fn frames()
    ensures { (id to : ℤ) (flags : ℕ) (body : Document)
        → FitsSigned w32 id → FitsSigned w32 to → flags < 2 ^ 32 → refused_bit flags ≡ None
        → is_set flags 0 ≡ false → Spells (spelled body) body → length (frame id to flags body) ≤ most_message
        → Framed (frame id to flags body) (message_of id to flags body) }
{}

/// `Short` names more bytes than are there: 16, or behind a whole header its messageLength.
pub fn short()
    ensures { (bytes : List ℕ) (n : ℕ) → flaw bytes ≡ Some (MsgFault.Short n) → AsksFor bytes n }
{}

/// Where the bytes are enough for an answer, what follows them does not change it: a reader looks at no byte behind the
/// message, and at none behind the header where the header is out of order.
pub fn settled()
    ensures { (bytes more : List ℕ)
        → ((n : ℕ) → flaw bytes ≢ Some (MsgFault.Short n)) → flaw (bytes ++ more) ≡ flaw bytes }
{}

/// The header is judged as soon as it is there: where it asks for more bytes, no later fault is its own.
pub fn header_first()
    ensures { (bytes more : List ℕ) (n : ℕ) (got : ℤ)
        → 16 ≤ length bytes → flaw bytes ≡ Some (MsgFault.Short n)
        → (flaw (bytes ++ more) ≢ Some (MsgFault.Length got))
        × (flaw (bytes ++ more) ≢ Some (MsgFault.Opcode got)) }
{}

/// As many bytes as the header asked for are as many as it says that the message has ([`all_of_it`]).
pub fn enough()
    ensures { (bytes more : List ℕ) (n : ℕ)
        → 16 ≤ length bytes → flaw bytes ≡ Some (MsgFault.Short n) → length (bytes ++ more) ≡ n
        → IsWhole (bytes ++ more) }
{}

/// Until as many bytes are there as it asked for, it asks for as many.
pub fn still_short()
    ensures { (bytes more : List ℕ) (n : ℕ) → flaw bytes ≡ Some (MsgFault.Short n) → length (bytes ++ more) < n
        → flaw (bytes ++ more) ≡ Some (MsgFault.Short n) }
{}

/// Where the bytes are as many as their header says, a message at their front is all of them, and no more are asked for.
pub fn all_of_it()
    ensures all { (bytes : List ℕ) (n : ℕ) (message : Message)
        → IsWhole bytes → Framed (take n bytes) message → Framed bytes message }
    ensures settled { (bytes : List ℕ) (n : ℕ) → IsWhole bytes → flaw bytes ≢ Some (MsgFault.Short n) }
{}

/// What a fault of the header or of flagBits says of the number at its place: that it is no length of a message, that it
/// is another opCode, or that the bit is the lowest that refuses it.
pub fn header_faults()
    ensures length { (bytes : List ℕ) (got : ℤ) → flaw bytes ≡ Some (MsgFault.Length got)
        → (need_of bytes ≡ None) × (got ≡ signed_at message_length_at bytes) }
    ensures opcode { (bytes : List ℕ) (got : ℤ) → flaw bytes ≡ Some (MsgFault.Opcode got)
        → (number_at op_code_at bytes ≢ op_msg) × (got ≡ signed_at op_code_at bytes) }
    ensures flags { (bytes : List ℕ) (bit : ℕ) → flaw bytes ≡ Some (MsgFault.Flags bit)
        → refused_bit (number_at flag_bits_at bytes) ≡ Some bit }
{}

/// Every place that a fault names lies inside the bytes, and inside the message's length where that is in its range. It is
/// the end of them only where the sections end, or where a document is missing.
pub fn places()
    ensures bytes { (bytes : List ℕ) (fault : MsgFault) (at : ℕ)
        → flaw bytes ≡ Some fault → place_of fault ≡ Some at → at ≤ length bytes }
    ensures message { (bytes : List ℕ) (fault : MsgFault) (at n : ℕ)
        → flaw bytes ≡ Some fault → place_of fault ≡ Some at → need_of bytes ≡ Some n → at ≤ n }
{}

/// That memory ran out is no fault of bytes, also inside a document.
pub fn not_memory()
    ensures outside { (bytes : List ℕ) → flaw bytes ≢ Some MsgFault.Memory }
    ensures inside { (bytes : List ℕ) (at : ℕ) → flaw bytes ≢ Some (MsgFault.Body at BsonFault.Memory) }
{}

/// Bytes have exactly one parting into the messages at their front and the rest, and `messages` gives it.
pub fn parted_once()
    ensures is { (bytes : List ℕ) → IsParted bytes (messages bytes) (behind_messages bytes) }
    ensures once { (bytes : List ℕ) (some others : List Message) (rest other_rest : List ℕ)
        → IsParted bytes some rest → IsParted bytes others other_rest → (some ≡ others) × (rest ≡ other_rest) }
{}

/// Messages that the bytes begin with are the first of `messages`, and the others are those of the rest.
pub fn begins()
    ensures { (bytes : List ℕ) (some : List Message) (rest : List ℕ)
        → Begins bytes some rest
        → (messages bytes ≡ some ++ messages rest) × (behind_messages bytes ≡ behind_messages rest) }
{}

/// What is whole stays where it is when more bytes come: further messages are those of the rest and the bytes that came.
pub fn stays()
    ensures begins { (bytes more : List ℕ) (some : List Message) (rest : List ℕ)
        → Begins bytes some rest → Begins (bytes ++ more) some (rest ++ more) }
    ensures messages { (bytes more : List ℕ)
        → messages (bytes ++ more) ≡ messages bytes ++ messages (behind_messages bytes ++ more) }
    ensures behind { (bytes more : List ℕ)
        → behind_messages (bytes ++ more) ≡ behind_messages (behind_messages bytes ++ more) }
{}

/// The front of a message begins with none.
pub fn front_asks_on()
    ensures { (bytes : List ℕ) → IsFront bytes → (messages bytes ≡ []) × (behind_messages bytes ≡ bytes) }
{}
