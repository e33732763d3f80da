//! Histories of one stream, of dials and of cluster times.
ghost use Rattle.std.specs.Prelude.{◌≡◌, ◌≢◌, ℕ, List, [], ◌∷◌, ◌++◌, None, Some, codes, pos};
ghost use Rattle.cmd_outcome.specs.Replies.{reading_of};
ghost use Rattle.cmd_outcome.specs.declared.reading.Reading.{Reading};
ghost use Rattle.msg_wire.specs.Framing.{Framed};
ghost use Rattle.msg_wire.specs.Fronts.{IsFront};
ghost use Rattle.msg_wire.specs.Places.{IsFaultyAt};
ghost use Rattle.msg_wire.specs.declared.message.Message.{Message};
ghost use Rattle.net_link.specs.Seen.{seen};
ghost use Rattle.net_link.specs.declared.event.NetEvent.TheVariants as event;
ghost use Rattle.desk_trail.specs.Clients.{Client};
ghost use Rattle.desk_trail.specs.Facts as fact;
ghost use Rattle.desk_trail.specs.Streams as told;
ghost use Rattle.wired_trail.specs.Wired.{HasCome, IsStreamWired, IsWired};
ghost use Rattle.trail_worked.specs.Histories.{answered, at_once, came, came_twice, sent, unanswered, undialled_twice};

/// A request that was answered: the message came whole, in one piece or in two, it has the request's id, and the trail has its reading.
pub fn an_answer()
    ensures whole { (bytes text : List ℕ) (m : Message) → Framed text m → m.to ≡ pos 1
        → IsStreamWired (seen 3 (sent bytes (came text))) (answered bytes (reading_of m.body)) }
    ensures in_two_pieces { (bytes first second : List ℕ) (m : Message) → Framed (first ++ second) m → m.to ≡ pos 1
        → IsStreamWired (seen 3 (sent bytes (came_twice first second))) (answered bytes (reading_of m.body)) }
    ensures to_another_request { (bytes text : List ℕ) (m : Message) (reading : Reading) → Framed text m → m.to ≢ pos 1
        → IsStreamWired (seen 3 (sent bytes (came text))) (answered bytes reading) → ⊥ }
    ensures of_another_reading { (bytes text : List ℕ) (m : Message) (reading : Reading) → Framed text m → reading ≢ reading_of m.body
        → IsStreamWired (seen 3 (sent bytes (came text))) (answered bytes reading) → ⊥ }
    ensures that_did_not_come { (bytes : List ℕ) (reading : Reading) → IsStreamWired (seen 3 (sent bytes [])) (answered bytes reading) → ⊥ }
    ensures that_came_on_another_stream { (bytes text : List ℕ) (reading : Reading)
        → IsStreamWired (seen 3 (sent bytes (event.Came 4 text ∷ []))) (answered bytes reading) → ⊥ }
    ensures to_bytes_that_were_not_sent { (byte : ℕ) (bytes text : List ℕ) (reading : Reading)
        → IsStreamWired (seen 3 (sent bytes (came text))) (answered (byte ∷ bytes) reading) → ⊥ }
{}

/// A request that has no answer: the peer ended the stream, a call on it failed, the net had no more, or what came is no message.
pub fn no_answer()
    ensures cut { (bytes : List ℕ) → IsStreamWired (seen 3 (sent bytes (event.Ended 3 ∷ []))) (unanswered bytes (Some told.Cut)) }
    ensures cut_in_a_message { (bytes text : List ℕ) → IsFront text
        → IsStreamWired (seen 3 (sent bytes (event.Came 3 text ∷ event.Ended 3 ∷ []))) (unanswered bytes (Some told.Cut)) }
    ensures failed { (bytes : List ℕ) → IsStreamWired (seen 3 (sent bytes (event.Fault 3 ∷ []))) (unanswered bytes (Some told.Fault)) }
    ensures late { (bytes : List ℕ) → IsStreamWired (seen 3 (sent bytes (event.Dry 3 ∷ []))) (unanswered bytes (Some told.Late)) }
    ensures late_while_it_is_sent { (first second : List ℕ)
        → IsStreamWired (seen 3 (sent first (event.Full 3 ∷ []))) (unanswered (first ++ second) (Some told.Late)) }
    ensures no_message { (bytes text : List ℕ) (at : ℕ) → IsFaultyAt text at
        → IsStreamWired (seen 3 (sent bytes (came text))) (unanswered bytes (Some (told.Bad at))) }
    ensures cut_though_none_ended_it { (bytes : List ℕ) → IsStreamWired (seen 3 (sent bytes (event.Fault 3 ∷ []))) (unanswered bytes (Some told.Cut)) → ⊥ }
    ensures failed_though_none_failed { (bytes : List ℕ) → IsStreamWired (seen 3 (sent bytes (event.Ended 3 ∷ []))) (unanswered bytes (Some told.Fault)) → ⊥ }
    ensures late_though_bytes_came_last { (bytes text : List ℕ)
        → IsStreamWired (seen 3 (sent bytes (came text))) (unanswered bytes (Some told.Late)) → ⊥ }
    ensures late_though_it_was_answered { (bytes text : List ℕ) (m : Message) → Framed text m
        → IsStreamWired (seen 3 (sent bytes (event.Came 3 text ∷ event.Dry 3 ∷ []))) (unanswered bytes (Some told.Late)) → ⊥ }
    ensures no_message_where_nothing_came { (bytes : List ℕ) (at : ℕ)
        → IsStreamWired (seen 3 (sent bytes (event.Ended 3 ∷ []))) (unanswered bytes (Some (told.Bad at))) → ⊥ }
{}

/// Dials without a stream, and cluster times.
pub fn dials_and_times()
    ensures one_dial_told_twice { (client : Client) → IsWired client (event.NoDial (codes "a:1") ∷ []) undialled_twice → ⊥ }
    ensures a_time_that_came_on_no_message { (client : Client) → IsWired client [] (at_once (fact.Time 7) ∷ []) → ⊥ }
    ensures a_time_that_came_on_none { HasCome [] 7 → ⊥ }
{}
