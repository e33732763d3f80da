//! Worked trails of checks and of looks for a server.
ghost use Rattle.std.specs.Prelude.{[]};
ghost use Rattle.desk_trail.specs.Legal.{AreLegal};
ghost use Rattle.trail_worked.specs.Words.{at, instead, left_out, AreComplete};
ghost use Rattle.desk_trail.specs.declared.entry.CheckHow.TheVariants as check;
ghost use Rattle.desk_trail.specs.declared.entry.LookedHow.TheVariants as looked;
ghost use Rattle.desk_trail.specs.Facts as fact;
ghost use Rattle.trail_worked.specs.OneInsert.{client_of_one};
ghost use Rattle.trail_worked.specs.NoServer.{client_with_deadline, no_server, no_server_behind_a_cut};
ghost use Rattle.trail_worked.specs.CheckLate.{check_late};

/// A selection fails at its deadline: the check that runs was read there, and had no answer.
pub fn no_server_at_the_deadline()
    ensures legal { AreLegal client_with_deadline no_server }
    ensures complete { AreComplete client_with_deadline no_server }
    ensures failed_ahead_of_the_deadline { AreLegal client_with_deadline
        (instead no_server 4 (at 600099 (fact.Looked 0 7 8 [] looked.Failed))) → ⊥ }
    ensures failed_with_a_check_that_was_not_read { AreLegal client_with_deadline (left_out no_server 4) → ⊥ }
    ensures none_yet_at_the_deadline { AreLegal client_with_deadline
        (instead no_server 5 (at 600100 (fact.Looked 0 7 8 [] looked.NoneFits))) → ⊥ }
    ensures answered_without_a_look { AreLegal client_with_deadline (left_out no_server 5) → ⊥ }
{}

/// A selection fails at its deadline while a check runs that it asked for: the first check was cut just ahead of its first look.
pub fn no_server_behind_a_check_that_was_cut()
    ensures legal { AreLegal client_with_deadline no_server_behind_a_cut }
    ensures complete { AreComplete client_with_deadline no_server_behind_a_cut }
    ensures failed_while_a_check_is_due { AreLegal client_with_deadline
        (instead no_server_behind_a_cut 7 (at 600200 (fact.Looked 0 7 8 [] looked.Failed))) → ⊥ }
    ensures a_check_within_half_a_second { AreLegal client_with_deadline
        (instead no_server_behind_a_cut 7 (at 500099 (fact.CheckBegan 0 2))) → ⊥ }
    ensures a_cut_check_that_clears_nothing { AreLegal client_with_deadline (left_out no_server_behind_a_cut 5) → ⊥ }
{}

/// A check of a known server ends late, and the next one begins at once; that one ends late too, and the next one waits.
pub fn a_check_ends_late()
    ensures legal { AreLegal client_of_one check_late }
    ensures complete { AreComplete client_of_one check_late }
    ensures late_ahead_of_its_time { AreLegal client_of_one
        (instead check_late 8 (at 20000099 (fact.CheckEnded 0 check.Late))) → ⊥ }
    ensures the_next_one_on_the_stream_that_was_late { AreLegal client_of_one
        (instead check_late 11 (at 20000100 (fact.CheckBegan 0 1))) → ⊥ }
    ensures at_once_though_the_server_was_unknown { AreLegal client_of_one
        (instead check_late 16 (at 30000100 (fact.CheckBegan 0 3))) → ⊥ }
    ensures a_late_check_that_is_not_offered { AreLegal client_of_one (left_out check_late 9) → ⊥ }
{}
