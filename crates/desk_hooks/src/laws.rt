//! What listeners hear of a client, each law as the contract of a function that does nothing.
ghost use Rattle.std.specs.Prelude.{List, [], ◌∷◌, ◌++◌};
ghost use Rattle.desk_trail.specs.Facts.{Fact};
ghost use Rattle.drv_events.specs.declared.hooks.HooksOf.{HooksOf};
ghost use Rattle.entry_judge.specs.declared.timed.Timed.{Timed};
ghost use Rattle.trail_events.specs.Told.{told};
ghost use Rattle.desk_hooks.specs.Calls.{AreCalls, HeardWhole, Stage};
ghost use Rattle.desk_hooks.specs.Hearing.{AreTold, HearMore};

use drv_events::Listener;

/// Listeners that are told what is appended to a trail, and then what is appended behind that, are told what is appended in all.
pub fn hearing_composes<L: Listener>()
    ensures { (a b c : List (Timed Fact)) (x y z : HooksOf L)
        → HearMore L.heard L.leaves a b x y → HearMore L.heard L.leaves b c y z → HearMore L.heard L.leaves a c x z }
{}

/// A listener that stays hears all that its client's trail tells, each event once and in order: where a client began, made any calls
/// and ended, each that is still there heard, behind what it had heard before, just what the whole trail tells; those that are not
/// there left, and are counted. So where none left each of them heard just that. The first stage is that behind
/// [`HookedDesk::new`](crate::HookedDesk::new), the last that behind [`HookedDesk::finish`](crate::HookedDesk::finish).
pub fn each_that_stays_heard_the_whole_trail<L: Listener>()
    ensures { (start : HooksOf L) (first : Stage L) (between : List (Stage L)) (last : Stage L)
        → AreTold L.heard L.leaves (told first.facts) start first.hooks → AreCalls L.heard L.leaves first (between ++ last ∷ [])
        → HeardWhole L.heard (told last.facts) start last.hooks }
{
    drv_events::laws::each_heard_what_was_told_since::<L>();
    drv_events::laws::all_are_counted::<L>();
}
