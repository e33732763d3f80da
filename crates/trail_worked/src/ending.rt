//! Worked trails of the end of a client.
ghost use Rattle.std.specs.Prelude.{pos, [], ◌∷◌};
ghost use Rattle.desk_trail.specs.Legal.{AreLegal};
ghost use Rattle.trail_worked.specs.Words.{at, instead, put_in, command_request, AreComplete, farewell};
ghost use Rattle.pool_book.specs.declared.answers.CloseReason.TheVariants as reason;
ghost use Rattle.desk_trail.specs.declared.entry.LookedHow.TheVariants as looked;
ghost use Rattle.desk_trail.specs.Facts as fact;
ghost use Rattle.trail_worked.specs.LeasedAgain.{session_id, numbered_bytes};
ghost use Rattle.trail_worked.specs.ClientEnds.{client_of_router, client_ends};

/// A client ends: a farewell for its session, then its pool is closed, and the connection of it shut.
pub fn a_client_ends()
    ensures legal { AreLegal client_of_router client_ends }
    ensures complete { AreComplete client_of_router client_ends }
    ensures a_look_behind_the_farewell { AreLegal client_of_router
        (put_in client_ends 20 (at 500 (fact.Looked 0 7 8 (0 ∷ []) (looked.Chosen 0)))) → ⊥ }
    ensures a_command_behind_the_farewell { AreLegal client_of_router
        (put_in client_ends 20 (at 500 (fact.Asked 4 (command_request 0 2 (pos 5) (numbered_bytes (pos 5) (pos 2)))))) → ⊥ }
    ensures a_second_farewell_on_the_connection { AreLegal client_of_router
        (put_in client_ends 20 (at 500 (fact.Asked 4 (farewell 2 (pos 5) (session_id ∷ []))))) → ⊥ }
    ensures a_farewell_on_a_connection_that_is_lent { AreLegal client_of_router
        (put_in client_ends 15 (at 350 (fact.Asked 3 (farewell 2 (pos 4) (session_id ∷ []))))) → ⊥ }
    ensures a_farewell_on_a_connection_that_was_idle_too_long { AreLegal client_of_router
        (instead client_ends 19 (at 1401 (fact.Asked 3 (farewell 2 (pos 4) (session_id ∷ []))))) → ⊥ }
    ensures its_connection_shut_as_stale { AreLegal client_of_router
        (instead client_ends 21 (at 500 (fact.ConnShut 0 1 reason.Stale))) → ⊥ }
    ensures a_pool_closed_twice { AreLegal client_of_router (instead client_ends 21 (at 500 (fact.PoolShut 0))) → ⊥ }
{}
