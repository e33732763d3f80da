//! What holds of clients, each law as the contract of a function that does nothing.
ghost use Rattle.std.specs.Prelude.{◌≡◌, ◌^◌, ℕ, min};
ghost use Rattle.desk_core.specs.Appends.{AreQuiet, TellsNone};
ghost use Rattle.desk_hooks.specs.Hearing.{AreTold};
ghost use Rattle.desk_hooks.specs.State.{HookedDesk};
ghost use Rattle.drv_events.specs.declared.hooks.HooksOf.{HooksOf};
ghost use Rattle.legal_trail.specs.Recorded.{told_in};
ghost use Rattle.trail_events.specs.Told.{told};
ghost use Rattle.desk_share.specs.Shared.{Begins, HeardNothing};

use drv_events::Listener;
use net_link::{Clock, Net};
use server_pick::Picker;

/// A desk that was just made begins a client, where its listeners had heard nothing: what [`HookedDesk::new`](desk_hooks::HookedDesk::new)
/// says of it is what [`DrivenDesk::new`](crate::DrivenDesk::new) asks for.
pub fn a_new_desk_begins<N: Net, P: Picker, L: Listener, C: Clock>()
    ensures { (moment : ℕ) (given : HooksOf L) (h : HookedDesk N P L) → C.shows moment
        → h.desk.trail.client.began ≡ min moment (2 ^ 62) → h.desk.last ≡ min moment (2 ^ 62) → AreQuiet (min moment (2 ^ 62)) h.desk.trail.steps
        → TellsNone (told_in h.desk.trail) → HeardNothing L.heard given.listeners.items
        → AreTold L.heard L.leaves (told (told_in h.desk.trail)) given h.hooks → Begins C.shows L.heard h }
{
    drv_events::laws::each_heard_what_was_told_since::<L>();
}
