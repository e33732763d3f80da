ghost use Rattle.std.specs.Prelude.{◌↔◌, IsTrue};
ghost use Rattle.entry_judge.specs.Moments.{NeverFalls};

use crate::Timed;

/// Whether no entry's moment is below that of the entry ahead of it.
pub fn never_falls<E>(entries: &[Timed<E>]) -> bool
    ensures { IsTrue result ↔ NeverFalls 0 entries.now }
{
    let mut last = 0;
    for entry in entries {
        if entry.at < last {
            return false;
        }
        last = entry.at;
    }
    true
}
