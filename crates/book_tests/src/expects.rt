//! A listener for the tests of events.
use drv_events::{Event, Listener};
use host_name::Host;

/// A listener that leaves once it has heard just these events, where the names came along.
#[derive(Drop)]
pub struct Expects {
    /// What it heard.
    pub heard: Vec<Event>,
    /// What it is to hear.
    pub events: [Event; 2],
    /// Whether it leaves.
    pub leaves: bool,
}

impl Listener for Expects {
    ghost heard = { λ x. x.heard.items };

    ghost leaves = { λ x. x.leaves };

    fn hear(&mut self, names: &[Host], event: &Event) {
        let kept = self.heard.push(*event).is_ok();
        self.leaves = !kept || names.len() == 1 && self.heard.as_slice() == self.events.as_slice();
    }

    fn leaving(&self) -> bool {
        self.leaves
    }
}
