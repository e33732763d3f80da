//! The law of retried writes.
ghost use Rattle.std.specs.Prelude.{ℕ, List};
ghost use Rattle.entry_judge.specs.declared.timed.Timed.{Timed};
ghost use Rattle.net_link.specs.declared.event.NetEvent.{NetEvent};
ghost use Rattle.member_core.specs.Honest.{IsHonest};
ghost use Rattle.desk_trail.specs.Clients.{Client};
ghost use Rattle.desk_trail.specs.Facts.{Fact};
ghost use Rattle.desk_trail.specs.Legal.{AreLegal};
ghost use Rattle.wired_trail.specs.Wired.{IsWired};
ghost use Rattle.write_effects.specs.Effects.{TakesEffectOnce};

/// Whatever answers are lost, whichever requests come late or again and whoever is elected: against members that are honest each
/// command takes effect at most once, and a write that is answered ok exactly once.
pub fn each_write_takes_effect_once()
    ensures { (client : Client) (facts : List (Timed Fact)) (history : List NetEvent) (op : ℕ)
        → AreLegal client facts → IsWired client history facts → IsHonest history → TakesEffectOnce client facts history op }
{
    member_core::laws::logs();
    request_keys::keys::each_request_is_a_message();
    request_keys::keys::a_command_has_a_key_of_its_own();
    answer_laws::replies::an_ok_is_that_of_a_reply();
}
