ghost use Rattle.std.specs.Prelude.{◌≡◌};
ghost use Rattle.desk_trail.specs.States.{fresh_command};

use cmd_build::Command;
use cmd_state::RunningCommand;
use std::marker::Model;

/// A command on its way; the id of the request, of it or of the connection that it dials, whose answer is waited for; and whether it
/// has begun.
#[derive(Drop)]
pub struct Operation {
    pub running: RunningCommand,
    pub awaited: i32,
    /// It looked for a server, and there is room for what it appends beside its looks.
    pub has_begun: bool,
}

impl Model for Operation {
    ghost use Rattle.desk_trail.specs.States.{CommandState};

    ghost Value = { CommandState };

    ghost view = { λ o. o.running };
}

impl Operation {
    /// A command for which nothing was done.
    pub fn new(command: &Command) -> Operation
        ensures { result ≡ fresh_command command.now }
    {
        Operation {
            running: RunningCommand::new(command),
            awaited: 0,
            has_begun: false,
        }
    }

    /// How many commands begin by its look: one where it is its first.
    pub fn begins(&self) -> usize {
        if self.has_begun { 0 } else { 1 }
    }
}
