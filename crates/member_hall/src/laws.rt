//! Laws of what is played, each the contract of a function that does nothing.
ghost use Rattle.std.specs.Prelude.{◌≡◌, ◌<◌, ◌++◌, ◌∷◌, [], ℕ, List, false, length, slice_set};
ghost use Rattle.msg_wire.specs.declared.message.Message.{Message};
ghost use Rattle.net_link.specs.declared.event.NetEvent.TheVariants as event;
ghost use Rattle.member_hall.specs.Acts.{elected, following, host_of, met};
ghost use Rattle.member_hall.specs.declared.act.Act.{Act};
ghost use Rattle.member_hall.specs.Halls.{HallState, line_at, peer_at, with_peer};
ghost use Rattle.member_hall.specs.Honest.{IsSound};
ghost use Rattle.member_hall.specs.Lines.{new_line};
ghost use Rattle.member_hall.specs.Playing.{IsNext, Plays};
ghost use Rattle.member_hall.specs.Requests.{IsFramedBy, rule_of};
ghost use Rattle.member_hall.specs.Turns.{end_on, late_on, place_in, request_on};

/// What members do by themselves keeps a history honest, adds no event of a call, and keeps streams open, ended and with all that
/// came on them: an election, a following, an act that concerns one member alone, a stream that its member ends, a request, and
/// one that is handled later.
pub fn members_keep_histories_honest()
    ensures elect { (h : HallState) (m : ℕ) → m < length h.peers → Plays h (elected m h) }
    ensures follow { (h : HallState) (m : ℕ) → m < length h.peers → Plays h (following m h) }
    ensures meet { (h : HallState) (a : Act) → host_of a < length h.peers
        → Plays h (with_peer (host_of a) (met a (peer_at h.peers (host_of a))) h) }
    ensures end { (h : HallState) (s : ℕ) → s < length h.lines → (line_at h.lines s).ended ≡ false → Plays h (end_on s h) }
    ensures request { (h : HallState) (s : ℕ) (message : Message) → IsNext h s message
        → IsFramedBy (rule_of (peer_at h.peers (line_at h.lines s).member) message) (place_in h s) message (peer_at h.peers (line_at h.lines s).member).member
        → Plays h (request_on s h message) }
    ensures late { (h : HallState) (s : ℕ) → s < length h.lines → (line_at h.lines s).member < length h.peers → Plays h (late_on s h) }
{}

/// So does a stream that is dialled, and so do bytes that go out on one that its member has not ended.
pub fn calls_keep_histories_honest()
    ensures dial { (h : HallState) (m : ℕ) (address : List ℕ) → IsSound h
        → IsSound (record h { lines = h.lines ++ new_line m ∷ []; events = h.events ++ event.Dialled (length h.lines) address ∷ [] }) }
    ensures out { (h : HallState) (s : ℕ) (bytes : List ℕ) → IsSound h → s < length h.lines → (line_at h.lines s).ended ≡ false
        → IsSound (record h {
          lines = slice_set h.lines s (record (line_at h.lines s) { rest = (line_at h.lines s).rest ++ bytes });
          events = h.events ++ event.Out s bytes ∷ [];
        }) }
{}
