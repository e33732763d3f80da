ghost use Rattle.std.specs.Prelude.{◌≡◌, Bool, List};
ghost use Rattle.drv_events.specs.Hearing.{Hears};
ghost use Rattle.drv_events.specs.declared.event.Event.{Event};

use crate::Event;
use host_name::Host;

/// What an application hands in to hear a client's events. To contracts it is the list of the events that it heard.
///
/// A listener is called under the client's lock, so it is to answer at once and may not call the client. One that needs
/// memory and gets none says that it leaves. What a listener does besides is its own matter, and so is what follows where
/// it does not return.
pub trait Listener: Send + Drop {
    /// The events that it heard, in order.
    ghost heard: { Self → List Event };

    /// Whether it wants to hear no more.
    ghost leaves: { Self → Bool };

    /// Hears an event: it joins those that were heard, or the listener leaves without it. `names` has the hosts that the
    /// event speaks of, each at its number.
    fn hear(&mut self, names: &[Host], event: &Event)
        ensures heard { Hears event.now (heard self.old) (heard self.new) (leaves self.new) };

    /// Whether it wants to hear no more, and is to be dropped.
    fn leaving(&self) -> bool
        ensures value { result ≡ leaves self.now };
}

/// A boxed listener hears what the listener inside hears.
impl Listener for Box<dyn Listener> {
    ghost heard = { λ b. (Listener-box b).heard b.value };

    ghost leaves = { λ b. (Listener-box b).leaves b.value };

    fn hear(&mut self, names: &[Host], event: &Event) {
        (**self).hear(names, event)
    }

    fn leaving(&self) -> bool {
        (**self).leaving()
    }
}
