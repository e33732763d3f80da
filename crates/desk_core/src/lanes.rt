//! Which command of a lane comes next.
ghost use Rattle.std.specs.Prelude.{◌≡◌, ◌≤◌, true, false, length};
ghost use Rattle.desk_trail.specs.Clients.{Client};
ghost use Rattle.desk_trail.specs.States.{ClientState};
ghost use Rattle.desk_core.specs.Nexts.{AreAnsweredTo, IsNextIn};

use crate::operation::Operation;
use cmd_build::Command;

/// Whether a command is one of the lane, and not answered.
fn is_open(command: &Command, operation: &Operation, lane: u32) -> bool
    ensures lane { result ≡ true → command.now.lane ≡ lane }
    ensures waits { result ≡ true → operation.now.is_finished ≡ false }
    ensures no { result ≡ false → command.now.lane ≡ lane → operation.now.is_finished ≡ true }
{
    command.lane == lane && !operation.running.is_finished()
}

/// The first command of a lane that is not answered, where each of the lane ahead of a place is.
pub fn next_in(commands: &[Command], operations: &[Operation], lane: u32, from: u32) -> Option<u32>
    requires few { length commands.now ≤ 16777216 }
    requires same { length operations.now ≡ length commands.now }
    requires ahead { AreAnsweredTo commands.now operations.now lane from }
    ensures { (client : Client) (w : ClientState) → client.commands ≡ commands.now → w.commands ≡ operations.now → IsNextIn client w lane result }
{
    let mut place = commands.len().min(from as usize);
    'seeking: while place < commands.len() {
        if is_open(&commands[place], &operations[place], lane) {
            return Some(place as u32);
        }
        place += 1;
    }
    None
}
