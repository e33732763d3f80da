ghost use Rattle.std.specs.Prelude.{◌≡◌};
ghost use Rattle.shell_top.specs.Run.{exit_code};

use desk_trail::Trail;
use drv_events::{Hooks, HooksOf};
use member_hall::Hall;
use run_words::UseFault;
use script_text::ScriptFault;
use server_pick::Picker;

/// How a run ended. The program ends with the status' number.
#[derive(Debug, Drop)]
pub enum Status {
    /// 0: every command's line is ok, and the report was written whole.
    AllOk,
    /// 1: the report was written whole, and some line is not ok.
    SomeFailed,
    /// 2: the words are refused; nothing was dialled, and the script was not read.
    Usage(UseFault),
    /// 3: the script is refused; nothing was dialled.
    Script(ScriptFault),
    /// 4: the script could not be read; nothing was dialled.
    ReadFault,
    /// 5: the report could not be written whole.
    WriteFault,
    /// 6: there was not enough memory.
    Memory,
}

impl Status {
    /// The number that the program ends with.
    pub fn code(&self) -> u8
        ensures { result ≡ exit_code self.now }
    {
        match self {
            Status::AllOk => 0,
            Status::SomeFailed => 1,
            Status::Usage(_) => 2,
            Status::Script(_) => 3,
            Status::ReadFault => 4,
            Status::WriteFault => 5,
            Status::Memory => 6,
        }
    }
}

/// What a run leaves: how it ended, what it was given, and the trail of all that its client did.
#[derive(Drop)]
pub struct Ended<N> {
    /// How it ended.
    pub status: Status,
    /// The net that was handed in.
    pub net: N,
    /// What the client did; nothing where the run ended before its first command.
    pub trail: Trail,
    /// The listeners that are still there, and how many left.
    pub hooks: Hooks,
    /// The picker that was handed in.
    pub picker: Box<dyn Picker>,
    /// The members that a soak played in memory, as it left them; there are some exactly behind a soak that made them.
    pub soaked: Option<Hall>,
}

/// What a run is given, and gives back.
#[derive(Drop)]
pub struct Given<N, P, L> {
    pub net: N,
    pub picker: P,
    pub hooks: HooksOf<L>,
}

/// The same of a run with a picker and listeners of any types.
#[derive(Drop)]
pub struct Ran<N, P, L> {
    pub status: Status,
    pub given: Given<N, P, L>,
    pub trail: Trail,
    pub soaked: Option<Hall>,
}
