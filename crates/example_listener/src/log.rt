use crate::lines::write_line;
use drv_events::{Event, Listener};
use host_name::Host;
use std::alloc::Global;

/// A listener that writes a line for each event. It leaves where memory is wanting. To contracts it is the events that it heard,
/// which is why it keeps them beside the lines.
#[derive(Drop)]
pub struct Log {
    /// The lines.
    pub lines: String,
    /// The events that it heard, in order.
    pub heard: Vec<Event>,
    /// Whether memory was wanting.
    pub leaves: bool,
}

impl Log {
    /// A log without a line.
    pub fn new(alloc: Global) -> Log {
        Log {
            lines: String::new(alloc),
            heard: Vec::new(alloc),
            leaves: false,
        }
    }
}

impl Listener for Log {
    ghost heard = { λ log. log.heard.items };

    ghost leaves = { λ log. log.leaves };

    fn hear(&mut self, names: &[Host], event: &Event) {
        let kept = self.heard.push(*event).is_ok();
        let written = write_line(&mut self.lines, names, event).is_ok();
        self.leaves = !kept || !written;
    }

    fn leaving(&self) -> bool {
        self.leaves
    }
}
