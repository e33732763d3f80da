//! What a client's requests are to members.
ghost use Rattle.std.specs.Prelude.{◌≡◌, ◌==◌, ℕ, List, Some, slice_get};
ghost use Rattle.entry_judge.specs.declared.timed.Timed.{Timed};
ghost use Rattle.member_core.specs.Keys.{same_key};
ghost use Rattle.desk_trail.specs.declared.request.Request.{Request};
ghost use Rattle.desk_trail.specs.Clients.{Client};
ghost use Rattle.desk_trail.specs.Facts.{Fact};
ghost use Rattle.desk_trail.specs.Legal.{AreLegal};
ghost use Rattle.request_keys.specs.Keys.{IsSeenAs, key_of_request};
ghost use Rattle.request_keys.specs.Requests.{IsAttempt, requests_on};

/// Each request of a stream is one message, and a write to members exactly where it is a command's that may change data.
pub fn each_request_is_a_message()
    ensures { (client : Client) (facts : List (Timed Fact)) (stream nth : ℕ) (r : Request) → AreLegal client facts
        → slice_get (requests_on client facts stream) nth ≡ Some r → IsSeenAs client r }
{}

/// All requests of a command have one key, whatever streams they went out on: its session's id and its number, or it has one request
/// alone. Requests of two commands have two keys.
pub fn a_command_has_a_key_of_its_own()
    ensures { (client : Client) (facts : List (Timed Fact)) (a s n b t m : ℕ) (r q : Request) → AreLegal client facts
        → IsAttempt client facts a s n r → IsAttempt client facts b t m q
        → same_key (key_of_request r s n) (key_of_request q t m) ≡ (a == b) }
{
    msg_wire::laws::begins();
    desk_trail::laws::sessions::a_command_draws_once();
    desk_trail::laws::sessions::no_number_is_drawn_twice();
}
