//! Laws of wires, each the contract of a function that does nothing.

ghost use Rattle.std.specs.Prelude.{◌≡◌, ◌≤◌, ℕ, List, [], ◌++◌, flat_map, length};
ghost use Rattle.msg_wire.specs.Messages.{Begins, IsParted};
ghost use Rattle.msg_wire.specs.declared.message.Message.{Message};
ghost use Rattle.net_link.specs.Events.{OnlyAt};
ghost use Rattle.net_link.specs.declared.event.NetEvent.{NetEvent};
ghost use Rattle.desk_wire.specs.Exchange.{exchange_end};
ghost use Rattle.desk_wire.specs.Gains.{Gains, turned_as};
ghost use Rattle.desk_wire.specs.Made.{Made, is_read, is_turn, is_write};
ghost use Rattle.desk_wire.specs.Pull.{pull_end};
ghost use Rattle.desk_wire.specs.Push.{push_end};
ghost use Rattle.desk_wire.specs.Messages.{Step, handed, Follow, Sending, Sends, WantedMemory, bytes_queued, bytes_sent};

use crate::{Pulled, Pushed};

/// Over any list of pulls on a new wire: what was handed out, with what is held, is the messages at the front of all that
/// came, in order, each once. It is all of them, unless the last pull wanted memory: then at most one is still held.
pub fn pulls_in_order()
    ensures begins { (steps : List Step) (held : List ℕ) → Follow [] steps held
        → Begins (flat_map (λ step. step.came) steps) (flat_map handed steps) held }
    ensures all { (steps : List Step) (held : List ℕ) → Follow [] steps held → ¬ WantedMemory steps
        → IsParted (flat_map (λ step. step.came) steps) (flat_map handed steps) held }
    ensures wanting { (steps : List Step) (held : List ℕ) (more : List Message) (rest : List ℕ) → Follow [] steps held
        → Begins held more rest → length more ≤ 1 }
{}

/// Over any list of calls that queue and send on a new wire: what was sent, with what is unsent, is all that was queued.
pub fn sends_in_order()
    ensures { (calls : List Sending) (unsent : List ℕ) → Sends [] calls unsent
        → flat_map bytes_sent calls ++ unsent ≡ flat_map bytes_queued calls }
{}

/// All that a push, a pull, a turn or an exchange asked of the net concerned its stream. So the view of any other stays as
/// it was (`other_streams_stay` of `net_link`).
pub fn on_one_stream()
    ensures pushes { (stream : ℕ) (sent : List ℕ) (answer : Pushed) (old new : List NetEvent)
        → Made (is_write stream) sent [] (push_end stream answer) old new → OnlyAt stream old new }
    ensures pulls { (stream : ℕ) (came : List ℕ) (answer : Pulled) (old new : List NetEvent)
        → Made (is_read stream) [] came (pull_end stream answer) old new → OnlyAt stream old new }
    ensures exchanges { (stream : ℕ) (sent came unsent : List ℕ) (answer : Pulled) (old new : List NetEvent)
        → Made (is_turn stream) sent came (exchange_end stream unsent answer) old new → OnlyAt stream old new }
{}

/// What the view of its own stream gained: the bytes that it sent and those that came. At the end, at a fault, and where
/// there is nothing yet, the net said so in this call.
pub fn gains()
    ensures pushes { (stream : ℕ) (sent : List ℕ) (answer : Pushed) (old new : List NetEvent)
        → Made (is_write stream) sent [] (push_end stream answer) old new → Gains stream sent [] (turned_as answer) old new }
    ensures pulls { (stream : ℕ) (came : List ℕ) (answer : Pulled) (old new : List NetEvent)
        → Made (is_read stream) [] came (pull_end stream answer) old new → Gains stream [] came answer old new }
    ensures exchanges { (stream : ℕ) (sent came unsent : List ℕ) (answer : Pulled) (old new : List NetEvent)
        → Made (is_turn stream) sent came (exchange_end stream unsent answer) old new → Gains stream sent came answer old new }
{}
