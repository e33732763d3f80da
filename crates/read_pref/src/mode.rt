ghost use Rattle.std.specs.Prelude.{◌≡◌, find};
ghost use Rattle.bson_doc.specs.Documents.{is_text};
ghost use Rattle.read_pref.specs.Modes.{name_of};

/// Which servers may be read from (Server Selection, Read Preference, mode).
#[derive(Clone, Copy, Debug, PartialEq, Eq)]
pub enum Mode {
    /// The primary alone.
    Primary,
    /// The primary, or a secondary where there is no primary.
    PrimaryPreferred,
    /// Secondaries alone.
    Secondary,
    /// Secondaries, or the primary where no secondary fits.
    SecondaryPreferred,
    /// The primary and the secondaries alike.
    Nearest,
}

/// The modes, in the standard's order.
const MODES: [Mode; 5] = [
    Mode::Primary,
    Mode::PrimaryPreferred,
    Mode::Secondary,
    Mode::SecondaryPreferred,
    Mode::Nearest,
];

impl Mode {
    ghost use Rattle.read_pref.specs.Modes.{mode_named, name_of};

    /// The mode's name in connection strings, scripts and commands.
    pub fn name(self) -> &'static str
        ensures { result.now ≡ name_of self }
    {
        match self {
            Mode::Primary => "primary",
            Mode::PrimaryPreferred => "primaryPreferred",
            Mode::Secondary => "secondary",
            Mode::SecondaryPreferred => "secondaryPreferred",
            Mode::Nearest => "nearest",
        }
    }

    /// The mode of that name, byte by byte; none where no mode has it.
    pub fn from_name(name: &str) -> Option<Mode>
        ensures { result ≡ mode_named name.now }
    {
        named(name, &MODES)
    }
}

/// The first of the modes that has the name.
fn named(name: &str, modes: &[Mode]) -> Option<Mode>
    ensures { result ≡ find (λ m. is_text (name_of m) name.now) modes.now }
{
    for mode in modes {
        if mode.name() == name {
            return Some(*mode);
        }
    }
    None
}
