ghost use Rattle.std.specs.Prelude.{◌≡◌};

use drv_events::{Event, Listener};
use host_name::Host;

/// A listener that keeps what it hears, up to a number of events, and then leaves.
#[derive(Drop)]
pub struct Recorder {
    /// What it is called.
    pub name: String,
    /// What it heard, in order.
    pub heard: Vec<Event>,
    /// After how many events it leaves; none if it stays.
    pub most: Option<usize>,
    /// Whether it leaves.
    pub leaves: bool,
}

impl Listener for Recorder {
    ghost heard = { λ r. r.heard.items };

    ghost leaves = { λ r. r.leaves };

    fn hear(&mut self, _names: &[Host], event: &Event) {
        if self.leaves {
            return;
        }
        let kept = self.heard.push(*event).is_ok();
        self.leaves = !kept || self.most == Some(self.heard.len());
    }

    fn leaving(&self) -> bool {
        self.leaves
    }
}
