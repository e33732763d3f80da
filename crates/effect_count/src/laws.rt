//! The requests of a stream.
ghost use Rattle.std.specs.Prelude.{◌≡◌, ℕ, List, false};
ghost use Rattle.entry_judge.specs.declared.timed.Timed.{Timed};
ghost use Rattle.desk_trail.specs.Clients.{Client};
ghost use Rattle.desk_trail.specs.Facts.{Fact};
ghost use Rattle.desk_trail.specs.Legal.{AreLegal};
ghost use Rattle.request_keys.specs.Requests.{requests_on};
ghost use Rattle.effect_count.specs.Counts.{asked_on, asks_at, has_checks};

/// The requests of a stream are all that entries say were asked on it: none is asked before the one ahead of it was answered. Of a
/// stream of a server's checks that is said of the requests of commands alone, of which neither list has one: where two seeds are one
/// host, the answer to a check of the one is told as the other's.
pub fn the_requests_of_a_stream_are_those_asked_on_it()
    ensures same { (client : Client) (facts : List (Timed Fact)) (stream : ℕ) → AreLegal client facts → has_checks facts stream ≡ false
        → requests_on client facts stream ≡ asked_on facts stream }
    ensures commands { (client : Client) (facts : List (Timed Fact)) (stream nth op : ℕ) → AreLegal client facts
        → asks_at (requests_on client facts stream) nth op ≡ asks_at (asked_on facts stream) nth op }
{
    desk_trail::laws::pools::each_pool_has_its_trail();
    desk_trail::laws::pools::each_command_is_where_its_pool_has_it();
    desk_trail::laws::pools::no_connection_is_lent_to_two();
}
