//! What holds of every list of events, each law as the contract of a function that does nothing.
//!
//! A history is a list of events of which each answers what was to be done: what any list of calls of an
//! [`OpMachine`](crate::OpMachine) makes.
ghost use Rattle.std.specs.Prelude.{◌≡◌, ◌≤◌, ◌&&◌, Bool, true, false, List, length, nat_le};
ghost use Rattle.write_retry.specs.declared.events.OpEvent.{OpEvent};
ghost use Rattle.write_retry.specs.Histories.{IsHistory, answer_in, attempts, behind, drew, is_select, is_send, last_look, may_repeat, times, unlooked_from};
ghost use Rattle.write_retry.specs.Machine.{new_op};
ghost use Rattle.write_retry.specs.Verdict.{more, verdict};

/// The command is answered exactly where its attempts have a verdict, by that verdict.
pub fn answers_are_verdicts()
    ensures { (write retryable : Bool) (es : List OpEvent) → IsHistory write retryable es
        → answer_in (behind write retryable es).next ≡ verdict (drew write retryable es) (attempts es) (last_look es) }
{}

/// A server is to be selected exactly where a further one may be, by the attempts so far, and none was looked for since the
/// last of them ended.
pub fn a_server_is_selected_where_one_more_may_be()
    ensures { (write retryable : Bool) (es : List OpEvent) → IsHistory write retryable es
        → is_select (behind write retryable es).next ≡ (more (drew write retryable es) (attempts es) && unlooked_from true es) }
{}

/// A server is to be selected for a second time exactly where the first attempt ended and may be repeated, and never for a
/// third time; there are at most two attempts.
pub fn a_second_server_is_selected_to_repeat()
    ensures second { (write retryable : Bool) (es : List OpEvent) → IsHistory write retryable es
        → nat_le 2 (times is_select (new_op write retryable) es) ≡ may_repeat (drew write retryable es) (attempts es) }
    ensures third { (write retryable : Bool) (es : List OpEvent) → IsHistory write retryable es
        → times is_select (new_op write retryable) es ≤ 2 }
    ensures attempts { (write retryable : Bool) (es : List OpEvent) → IsHistory write retryable es → length (attempts es) ≤ 2 }
{}

/// A command that drew no transaction number is to be sent at most once, every other one at most twice.
pub fn without_a_number_sent_once()
    ensures once { (write retryable : Bool) (es : List OpEvent) → IsHistory write retryable es
        → drew write retryable es ≡ false → times is_send (new_op write retryable) es ≤ 1 }
    ensures twice { (write retryable : Bool) (es : List OpEvent) → IsHistory write retryable es
        → times is_send (new_op write retryable) es ≤ 2 }
{}
