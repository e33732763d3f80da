//! Worked trails of pools: what becomes of those who wait, of connections that are made, and of those that are lent.
ghost use Rattle.std.specs.Prelude.{false, Some};
ghost use Rattle.desk_trail.specs.Legal.{AreLegal};
ghost use Rattle.trail_worked.specs.Words.{at, instead, put_in, left_out, AreComplete};
ghost use Rattle.topo_rules.specs.declared.event.TopoEvent.TheVariants as event;
ghost use Rattle.pool_book.specs.declared.answers.CloseReason.TheVariants as reason;
ghost use Rattle.write_retry.specs.declared.events.Unsent.TheVariants as unsent;
ghost use Rattle.write_retry.specs.declared.outcome.Outcome.TheVariants as outcome;
ghost use Rattle.desk_trail.specs.declared.entry.OfferedHow.TheVariants as offered;
ghost use Rattle.desk_trail.specs.Facts as fact;
ghost use Rattle.trail_worked.specs.OneInsert.{alone, client_of_one};
ghost use Rattle.trail_worked.specs.Failover.{client_of_set};
ghost use Rattle.trail_worked.specs.PoolCleared.{client_of_cleared, pool_cleared};
ghost use Rattle.trail_worked.specs.StaleGreeting.{stale_greeting};
ghost use Rattle.trail_worked.specs.HostDropped.{host_dropped};
ghost use Rattle.trail_worked.specs.DialFailed.{dial_failed};

/// A pool is cleared while one command waits, one has a connection that is being made, and one has a connection that is lent.
pub fn a_pool_is_cleared()
    ensures legal { AreLegal client_of_cleared pool_cleared }
    ensures complete { AreComplete client_of_cleared pool_cleared }
    ensures a_connection_of_the_old_generation_lent { AreLegal client_of_cleared
        (instead pool_cleared 27 (at 10000400 (fact.Settled 1 0 2 false))) → ⊥ }
    ensures dialled_while_the_pool_is_paused { AreLegal client_of_cleared
        (instead pool_cleared 24 (at 10000300 (fact.Dialled 2 0 3 (Some 4)))) → ⊥ }
    ensures refused_as_late_in_a_cleared_pool { AreLegal client_of_cleared
        (instead pool_cleared 24 (at 40000500 (fact.NotLent 2 0 unsent.PoolLate))) → ⊥ }
    ensures refused_with_the_generation_ahead_of_the_clear { AreLegal client_of_cleared
        (instead pool_cleared 24 (at 10000300 (fact.NotLent 2 0 (unsent.PoolCleared 0)))) → ⊥ }
    ensures an_attempt_that_does_not_end { AreLegal client_of_cleared (left_out pool_cleared 25) → ⊥ }
    ensures a_stale_connection_kept_at_check_in { AreLegal client_of_cleared (left_out pool_cleared 34) → ⊥ }
    ensures a_stale_connection_shut_as_errored { AreLegal client_of_cleared
        (instead pool_cleared 28 (at 10000400 (fact.ConnShut 0 2 reason.Errored))) → ⊥ }
    ensures a_broken_check_that_clears_nothing { AreLegal client_of_cleared (left_out pool_cleared 23) → ⊥ }
{}

/// A greeting is answered once the pool was cleared and made ready again: its connection is shut, and its command gets none.
pub fn a_greeting_that_is_stale()
    ensures legal { AreLegal client_of_one stale_greeting }
    ensures complete { AreComplete client_of_one stale_greeting }
    ensures lent_in_the_next_generation { AreLegal client_of_one
        (instead stale_greeting 20 (at 10000400 (fact.Settled 0 0 1 false))) → ⊥ }
    ensures not_shut { AreLegal client_of_one (left_out stale_greeting 21) → ⊥ }
    ensures refused_with_the_old_generation { AreLegal client_of_one
        (instead stale_greeting 22 (at 10000400 (fact.NotLent 0 0 (unsent.PoolCleared 0)))) → ⊥ }
    ensures its_attempt_does_not_end { AreLegal client_of_one (left_out stale_greeting 23) → ⊥ }
    ensures the_next_check_on_the_stream_that_ended { AreLegal client_of_one
        (instead stale_greeting 15 (at 10000200 (fact.CheckBegan 0 1))) → ⊥ }
    ensures a_pool_that_stays_paused { AreLegal client_of_one (left_out stale_greeting 19) → ⊥ }
{}

/// A host is dropped while a connection of its pool is lent: the pool is closed, and the connection is shut at its check-in.
pub fn a_host_is_dropped()
    ensures legal { AreLegal client_of_set host_dropped }
    ensures complete { AreComplete client_of_set host_dropped }
    ensures a_host_that_is_not_dropped { AreLegal client_of_set (left_out host_dropped 20) → ⊥ }
    ensures a_pool_that_is_not_closed { AreLegal client_of_set (left_out host_dropped 21) → ⊥ }
    ensures its_connection_shut_as_stale { AreLegal client_of_set
        (instead host_dropped 25 (at 700 (fact.ConnShut 0 1 reason.Stale))) → ⊥ }
    ensures its_connection_kept { AreLegal client_of_set (left_out host_dropped 25) → ⊥ }
    ensures its_connection_shut_while_lent { AreLegal client_of_set
        (put_in host_dropped 23 (at 700 (fact.ConnShut 0 1 reason.PoolClosed))) → ⊥ }
    ensures a_check_of_the_host_that_left { AreLegal client_of_set
        (put_in host_dropped 23 (at 20000000 (fact.CheckBegan 0 9))) → ⊥ }
{}

/// A dial fails: the command gets no connection, the server is unknown, and its pool is cleared.
pub fn a_dial_fails()
    ensures legal { AreLegal client_of_one dial_failed }
    ensures complete { AreComplete client_of_one dial_failed }
    ensures an_attempt_that_does_not_end { AreLegal client_of_one (left_out dial_failed 10) → ⊥ }
    ensures an_error_that_is_not_offered { AreLegal client_of_one (left_out dial_failed 12) → ⊥ }
    ensures offered_as_stale { AreLegal client_of_one
        (instead dial_failed 12 (at 200 (fact.Offered 1 (event.Broken alone (Some 0)) offered.StaleGeneration))) → ⊥ }
    ensures dialled_again_without_a_ticket { AreLegal client_of_one
        (instead dial_failed 14 (at 200 (fact.Dialled 0 0 2 (Some 3)))) → ⊥ }
    ensures answered_as_cleared { AreLegal client_of_one
        (instead dial_failed 14 (at 200 (fact.Finished 0 (outcome.PoolCleared 1)))) → ⊥ }
{}
