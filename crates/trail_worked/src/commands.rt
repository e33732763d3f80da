//! Worked trails of commands: from a look for a server to the answer.
ghost use Rattle.std.specs.Prelude.{◌≡◌, pos, true, false, [], ◌∷◌, Some};
ghost use Rattle.desk_trail.specs.Legal.{AreLegal, IsLegal, IsComplete};
ghost use Rattle.trail_worked.specs.Words.{at, instead, put_in, left_out, command_request, AreComplete};
ghost use Rattle.topo_rules.specs.declared.event.TopoEvent.TheVariants as event;
ghost use Rattle.write_retry.specs.declared.outcome.Outcome.TheVariants as outcome;
ghost use Rattle.desk_trail.specs.declared.entry.LookedHow.TheVariants as looked;
ghost use Rattle.desk_trail.specs.declared.entry.OfferedHow.TheVariants as offered;
ghost use Rattle.desk_trail.specs.Facts as fact;
ghost use Rattle.trail_worked.specs.OneInsert.{client_of_one, standalone, insert_bytes, one_insert, insert_message, lists, steps};
ghost use Rattle.trail_worked.specs.LentAgain.{client_of_three, lent_again};
ghost use Rattle.trail_worked.specs.LeasedAgain.{client_of_two, other_id, numbered_bytes, leased_again};
ghost use Rattle.trail_worked.specs.Failover.{client_of_set, failover};
ghost use Rattle.trail_worked.specs.TooLarge.{too_large};

/// One insert on a standalone server, with the check that finds it.
pub fn one_insert_with_its_check()
    ensures legal { AreLegal client_of_one one_insert }
    ensures complete { AreComplete client_of_one one_insert }
    ensures step_by_step { IsLegal client_of_one lists steps }
    ensures its_bytes { insert_bytes (pos 3) ≡ insert_message }
    ensures none_left { IsComplete client_of_one lists steps }
    ensures a_second_check_while_one_runs { AreLegal client_of_one
        (put_in one_insert 3 (at 50 (fact.CheckBegan 0 3))) → ⊥ }
    ensures an_event_offered_twice { AreLegal client_of_one
        (put_in one_insert 6 (at 100 (fact.Offered 1 (event.Reply standalone 100) (offered.Accepted false)))) → ⊥ }
    ensures a_pool_that_is_not_made_ready { AreLegal client_of_one (left_out one_insert 5) → ⊥ }
    ensures lent_ahead_of_the_greeting { AreLegal client_of_one (instead one_insert 10 (at 300 (fact.Lent 0 0 1))) → ⊥ }
    ensures sent_on_the_stream_of_the_check { AreLegal client_of_one
        (instead one_insert 12 (at 300 (fact.Asked 2 (command_request 0 1 (pos 3) (insert_bytes (pos 3)))))) → ⊥ }
    ensures checked_in_as_errored { AreLegal client_of_one
        (instead one_insert 14 (at 400 (fact.CheckedIn 0 0 1 true))) → ⊥ }
    ensures finished_with_another_outcome { AreLegal client_of_one
        (instead one_insert 15 (at 400 (fact.Finished 0 (outcome.Ok (pos 0) (pos 0))))) → ⊥ }
{}

/// Two inserts over one connection: the second one waits, and then gets the connection that the first one gave back.
pub fn a_connection_is_lent_again()
    ensures legal { AreLegal client_of_three lent_again }
    ensures complete { AreComplete client_of_three lent_again }
    ensures lent_to_the_second_in_line { AreLegal client_of_three
        (instead lent_again 20 (at 410 (fact.Lent 2 0 1))) → ⊥ }
    ensures lent_while_another_has_it { AreLegal client_of_three (instead lent_again 17 (at 400 (fact.Lent 1 0 1))) → ⊥ }
    ensures one_more_connection_than_the_pool_may_have { AreLegal client_of_three
        (put_in lent_again 14 (at 300 (fact.Dialled 1 0 2 (Some 3)))) → ⊥ }
    ensures sent_while_it_waits { AreLegal client_of_three
        (instead lent_again 20 (at 410 (fact.Asked 3 (command_request 1 2 (pos 4) (insert_bytes (pos 4)))))) → ⊥ }
    ensures answered_ahead_of_the_check_in { AreLegal client_of_three (left_out lent_again 18) → ⊥ }
{}

/// Two inserts one after another with one session, and the numbers 1 and 2.
pub fn a_session_is_leased_again()
    ensures legal { AreLegal client_of_two leased_again }
    ensures complete { AreComplete client_of_two leased_again }
    ensures the_same_number_again { AreLegal client_of_two
        (instead leased_again 21 (at 500 (fact.Drew 1 (pos 1)))) → ⊥ }
    ensures a_new_session_though_one_waits { AreLegal client_of_two
        (instead leased_again 20 (at 500 (fact.Leased 1 1 other_id true))) → ⊥ }
    ensures a_number_without_a_session { AreLegal client_of_two (left_out leased_again 20) → ⊥ }
    ensures a_connection_without_a_number { AreLegal client_of_two (left_out leased_again 21) → ⊥ }
    ensures given_back_as_dirty { AreLegal client_of_two
        (instead leased_again 18 (at 400 (fact.Returned 0 true false))) → ⊥ }
    ensures not_given_back { AreLegal client_of_two (left_out leased_again 18) → ⊥ }
{}

/// A failover with a retry: the second attempt goes to the next primary, with the session and the number of the first one.
pub fn a_failover_with_a_retry()
    ensures legal { AreLegal client_of_set failover }
    ensures complete { AreComplete client_of_set failover }
    ensures a_second_number_for_the_retry { AreLegal client_of_set
        (put_in failover 32 (at 500400 (fact.Drew 0 (pos 2)))) → ⊥ }
    ensures another_number_in_the_request_of_the_retry { AreLegal client_of_set
        (instead failover 37 (at 500500 (fact.Asked 6 (command_request 0 4 (pos 7) (numbered_bytes (pos 7) (pos 2)))))) → ⊥ }
    ensures a_second_session_for_the_retry { AreLegal client_of_set
        (put_in failover 32 (at 500400 (fact.Leased 0 1 other_id true))) → ⊥ }
    ensures answered_without_a_retry { AreLegal client_of_set
        (instead failover 26 (at 500 (fact.Finished 0 outcome.Network))) → ⊥ }
    ensures a_pool_that_is_not_cleared { AreLegal client_of_set (left_out failover 23) → ⊥ }
    ensures an_error_that_is_not_offered { AreLegal client_of_set (left_out failover 22) → ⊥ }
    ensures a_session_given_back_clean { AreLegal client_of_set
        (instead failover 41 (at 500600 (fact.Returned 0 false true))) → ⊥ }
    ensures a_retry_ahead_of_the_next_primary { AreLegal client_of_set
        (instead failover 26 (at 500 (fact.Looked 0 7 8 (0 ∷ []) (looked.Chosen 0)))) → ⊥ }
{}

/// A command is too large: nothing of it goes out, and its connection is given back as it was.
pub fn a_command_is_too_large()
    ensures legal { AreLegal client_of_one too_large }
    ensures complete { AreComplete client_of_one too_large }
    ensures sent_all_the_same { AreLegal client_of_one
        (instead too_large 12 (at 300 (fact.Asked 2 (command_request 0 2 (pos 3) (insert_bytes (pos 3)))))) → ⊥ }
    ensures its_connection_as_errored { AreLegal client_of_one
        (instead too_large 13 (at 300 (fact.CheckedIn 0 0 1 true))) → ⊥ }
    ensures tried_again { AreLegal client_of_one
        (instead too_large 14 (at 300 (fact.Looked 0 7 8 (0 ∷ []) (looked.Chosen 0)))) → ⊥ }
    ensures its_connection_not_given_back { AreLegal client_of_one (left_out too_large 13) → ⊥ }
{}
