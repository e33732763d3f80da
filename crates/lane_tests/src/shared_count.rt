use drv_events::{Event, Listener};
use host_name::Host;
use std::sync::Arc;
use std::sync::atomic::{AtomicU64, Ordering};

/// A listener that counts the events it hears, and the checks that succeeded among them, where others see it. It leaves behind so many
/// events.
#[derive(Drop)]
pub struct SharedCount {
    /// The events that it heard.
    pub heard: Vec<Event>,
    /// Behind how many it leaves.
    pub most: usize,
    /// How many it heard.
    pub count: Arc<AtomicU64>,
    /// How many of them tell that a check succeeded.
    pub beats: Arc<AtomicU64>,
    /// Whether it leaves.
    pub leaves: bool,
}

impl Listener for SharedCount {
    ghost heard = { λ x. x.heard.items };

    ghost leaves = { λ x. x.leaves };

    fn hear(&mut self, _names: &[Host], event: &Event) {
        let kept = self.heard.push(*event).is_ok();
        self.count.fetch_add(1, Ordering::SeqCst);
        if let Event::BeatSucceeded { .. } = event {
            self.beats.fetch_add(1, Ordering::SeqCst);
        }
        self.leaves = !kept || self.heard.len() >= self.most;
    }

    fn leaving(&self) -> bool {
        self.leaves
    }
}
