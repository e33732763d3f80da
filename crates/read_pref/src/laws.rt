//! What holds of the definitions, each law as the contract of a function that does nothing.
ghost use Rattle.std.specs.Prelude.{◌≡◌, Some};
ghost use Rattle.read_pref.specs.Modes.{mode_named, name_of};

use crate::Mode;

/// A mode is read back from its name, so no two modes have one name.
pub fn a_name_tells_its_mode()
    ensures { (mode : Mode) → mode_named (name_of mode) ≡ Some mode }
{}
