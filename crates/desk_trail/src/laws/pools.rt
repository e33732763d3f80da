//! The pools of a trail.
ghost use Rattle.std.specs.Prelude.{◌≡◌, ℕ, Some, List, [], ◌∷◌, ◌++◌, slice_get};
ghost use Rattle.entry_judge.specs.declared.timed.Timed.{Timed};
ghost use Rattle.entry_judge.specs.Groups.{entries_of};
ghost use Rattle.pool_book.specs.Judge.{IsTrail, place_behind};
ghost use Rattle.pool_book.specs.Laws.{IsFree};
ghost use Rattle.pool_book.specs.Pool.{held_of};
ghost use Rattle.pool_book.specs.declared.connections.Held.{Held};
ghost use Rattle.desk_trail.specs.Clients.{Client, pool_rules};
ghost use Rattle.desk_trail.specs.Facts.{Fact};
ghost use Rattle.desk_trail.specs.Facts as fact;
ghost use Rattle.desk_trail.specs.Legal.{AreLegal, point_behind};
ghost use Rattle.desk_trail.specs.Parts.{pool_part};
ghost use Rattle.desk_trail.specs.Holds.{DialsAt, HasAt, WaitsAt};
ghost use Rattle.desk_trail.specs.Pools.{ticket_with};
ghost use Rattle.desk_trail.specs.States.{CommandState, Dials, Has, ServerState, Waits};

/// The entries of each host's pool are a trail of a pool by the client's rules, which leads to the pool that the host has, with
/// what must come next of it. So each law of a pool's trail holds of the pool of each host.
pub fn each_pool_has_its_trail()
    ensures trail { (client : Client) (ts : List (Timed Fact)) (host : ℕ) → AreLegal client ts
        → IsTrail (pool_rules client) (pool_part client host ts) }
    ensures place { (client : Client) (ts : List (Timed Fact)) (host : ℕ) (s : ServerState) → AreLegal client ts
        → slice_get (point_behind client ts).state.servers host ≡ Some s
        → s.pool ≡ place_behind (pool_rules client) (pool_part client host ts) }
{}

/// A command that waits for a connection waits in the pool that it asked; one that dialled a connection has it pending there,
/// where nothing must come next of that pool; and one to which a connection is lent has it lent by that pool.
pub fn each_command_is_where_its_pool_has_it()
    ensures waits { (client : Client) (ts : List (Timed Fact)) (op : ℕ) (c : CommandState) (host ticket : ℕ) → AreLegal client ts
        → slice_get (point_behind client ts).state.commands op ≡ Some c → c.check_out ≡ Waits host ticket
        → WaitsAt (point_behind client ts).state host ticket }
    ensures dials { (client : Client) (ts : List (Timed Fact)) (op : ℕ) (c : CommandState) (host ticket conn : ℕ) → AreLegal client ts
        → slice_get (point_behind client ts).state.commands op ≡ Some c → c.check_out ≡ Dials host ticket conn
        → DialsAt (point_behind client ts).state host ticket conn }
    ensures has { (client : Client) (ts : List (Timed Fact)) (op : ℕ) (c : CommandState) (host ticket conn : ℕ) → AreLegal client ts
        → slice_get (point_behind client ts).state.commands op ≡ Some c → c.check_out ≡ Has host ticket conn
        → HasAt (point_behind client ts).state host ticket conn }
{
    pool_book::laws::each_connection_stands_once();
}

/// Two commands have no ticket of one host in common, so a pool's ticket is at most one command's.
pub fn no_two_commands_have_one_ticket()
    ensures { (client : Client) (ts : List (Timed Fact)) (a b : ℕ) (x y : CommandState) (host ticket : ℕ) → AreLegal client ts
        → slice_get (point_behind client ts).state.commands a ≡ Some x → slice_get (point_behind client ts).state.commands b ≡ Some y
        → ticket_with host x.check_out ≡ Some ticket → ticket_with host y.check_out ≡ Some ticket → a ≡ b }
{
    pool_book::laws::each_connection_stands_once();
}

/// No connection is lent to two commands at a time.
pub fn no_connection_is_lent_to_two()
    ensures { (client : Client) (ts : List (Timed Fact)) (a b : ℕ) (x y : CommandState) (host s t conn : ℕ) → AreLegal client ts
        → slice_get (point_behind client ts).state.commands a ≡ Some x → slice_get (point_behind client ts).state.commands b ≡ Some y
        → x.check_out ≡ Has host s conn → y.check_out ≡ Has host t conn → a ≡ b }
{
    pool_book::laws::each_connection_stands_once();
}

/// Where a connection is lent, nobody had it until then, and it was dialled in the generation that its pool has there.
pub fn each_lent_connection_was_free()
    ensures { (client : Client) (ts : List (Timed Fact)) (moment op host conn : ℕ)
        → AreLegal client (ts ++ record { at = moment; what = fact.Lent op host conn } ∷ [])
        → IsFree (entries_of (pool_part client host ts)) conn }
{
    pool_book::laws::each_lent_connection_was_free();
}

/// A connection that is lent is of the generation that its pool has behind that entry.
pub fn each_lent_connection_is_current()
    ensures { (client : Client) (ts : List (Timed Fact)) (moment op host conn : ℕ) (s : ServerState) (h : Held)
        → AreLegal client (ts ++ record { at = moment; what = fact.Lent op host conn } ∷ [])
        → slice_get (point_behind client (ts ++ record { at = moment; what = fact.Lent op host conn } ∷ [])).state.servers host ≡ Some s
        → held_of conn s.pool.state.lent ≡ Some h → h.generation ≡ s.pool.state.generation }
{
    pool_book::laws::each_connection_stands_once();
    pool_book::laws::each_connection_is_of_the_generation_of_its_dial();
    pool_book::laws::the_pool_is_read_off_its_entries();
    pool_book::laws::each_lent_connection_was_free();
}
