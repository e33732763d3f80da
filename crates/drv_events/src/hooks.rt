ghost use Rattle.std.specs.Prelude.{◌≡◌, [], ◌∷◌, ◌++◌, ◌+◌, ◌<◌, ◌≤◌, ◌^◌, length, not, OnOk, IfErr};
ghost use Rattle.drv_events.specs.Hearing.{Delivered, Hears};

use crate::{Event, Listener};
use host_name::Host;
use std::alloc::Global;

/// The listeners of a client, as an application hands them in: boxed objects of any types.
pub type Hooks = HooksOf<Box<dyn Listener>>;

/// Listeners of one type, in the order in which they were added, and how many have left.
#[derive(Drop)]
pub struct HooksOf<L> {
    /// The listeners that are still there.
    pub listeners: Vec<L>,
    /// How many listeners left and were dropped.
    pub left: u64,
    ghost bounded: { length listeners.items + left ≤ 2 ^ 32 },
}

impl<L> HooksOf<L> {
    /// No listener, and none that left.
    pub fn new(alloc: Global) -> HooksOf<L>
        ensures listeners { result.listeners.items ≡ [] }
        ensures left { result.left ≡ 0 }
    {
        HooksOf {
            listeners: Vec::new(alloc),
            left: 0,
        }
    }

    /// How many listeners there are.
    pub fn len(&self) -> u64
        ensures count { result ≡ length self.now.listeners.items }
    {
        self.listeners.len() as u64
    }

    /// How many listeners left and were dropped.
    pub fn left(&self) -> u64
        ensures count { result ≡ self.now.left }
    {
        self.left
    }
}

impl<L: Drop> HooksOf<L> {
    /// Adds a listener behind those that are there. Where memory is wanting it is handed back.
    pub fn add(&mut self, listener: L) -> Result<(), L>
        requires room { length self.old.listeners.items + self.old.left < 2 ^ 32 }
        ensures ok { OnOk result (self.new.listeners.items ≡ self.old.listeners.items ++ listener ∷ []) }
        ensures err { IfErr result (λ back. (back ≡ listener) × (self.new.listeners.items ≡ self.old.listeners.items)) }
        ensures left { self.new.left ≡ self.old.left }
    {
        let Ok(()) = self.listeners.reserve(1) else {
            return Err(listener);
        };
        self.listeners.push_reserved(listener);
        Ok(())
    }
}

/// Tells every listener an event, one after another, and drops those that say that they leave. It takes no memory.
pub fn deliver<L: Listener>(hooks: &mut HooksOf<L>, names: &[Host], event: &Event)
    ensures heard { Delivered L.heard L.leaves event.now hooks.old.listeners.items hooks.new.listeners.items }
    ensures left { hooks.new.left + length hooks.new.listeners.items ≡ hooks.old.left + length hooks.old.listeners.items }
{
    let before = hooks.listeners.len();
    hooks
        .listeners
        .retain_mut(|listener| tell(listener, names, event));
    hooks.left += (before - hooks.listeners.len()) as u64;
}

/// Tells a listener an event; whether it stays.
fn tell<L: Listener>(listener: &mut L, names: &[Host], event: &Event) -> bool
    ensures heard { Hears event.now (L.heard listener.old) (L.heard listener.new) (L.leaves listener.new) }
    ensures value { result ≡ not (L.leaves listener.new) }
{
    listener.hear(names, event);
    !listener.leaving()
}
