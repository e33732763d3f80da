ghost use Rattle.std.specs.Prelude.{[]};
ghost use Rattle.net_link.specs.Causes.{count_of, count_of-below};

use net_link::{Sink, SinkTook};

/// The standard output as a sink. It tells no content.
#[derive(Drop)]
pub struct StandardOutput<'a, R: Print> {
    rt: &'a R,
    faults: u64,
}

impl<'a, R: Print> StandardOutput<'a, R> {
    pub fn new(rt: &'a R) -> StandardOutput<'a, R> {
        StandardOutput { rt, faults: 0 }
    }
}

impl<'a, R: Print> Sink for StandardOutput<'a, R> {
    ghost faults = { λ s. count_of s.faults };

    ghost tells = { ⊥ };

    ghost written = { λ _. [] };

    ghost counts = { λ s. count_of-below s.faults };

    fn write(&mut self, bytes: &[u8]) -> SinkTook {
        match self.rt.write_some(bytes) {
            Ok(count) if count > 0 => SinkTook::Took(count),
            _ => {
                self.faults = self.faults.saturating_add(1);
                SinkTook::Failed
            }
        }
    }
}
