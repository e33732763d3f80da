ghost use Rattle.std.specs.Prelude.{◌≡◌, not, ◌&&◌, is_some};
ghost use Rattle.std.specs.Option.{option_map};
ghost use Rattle.desk_trail.specs.States.{fresh_command};
ghost use Rattle.desk_trail.specs.Leases.{minutes_needed, needs_number};
ghost use Rattle.desk_trail.specs.Looks.{first_tried, is_at};
ghost use Rattle.cmd_state.specs.Inside.{check_out_of, selected_of, selection_of};

use crate::{CheckOut, Selected, Selection};
use cmd_build::{Command, is_retryable, is_write};
use std::marker::Model;
use write_retry::{Next, OpMachine};

/// A command on its way.
#[derive(Drop)]
pub struct RunningCommand {
    pub(crate) machine: OpMachine,
    pub(crate) selection: Option<Selection>,
    pub(crate) selected: Option<Selected>,
    pub(crate) first_tried: Option<u32>,
    pub(crate) second_tried: Option<u32>,
    pub(crate) check_out: CheckOut,
    pub(crate) dialled: Option<u64>,
    pub(crate) asked: Option<u64>,
    pub(crate) session: Option<usize>,
    pub(crate) number: Option<i64>,
    pub(crate) is_dirty: bool,
    pub(crate) is_finished: bool,
}

impl Model for RunningCommand {
    ghost use Rattle.desk_trail.specs.States.{CommandState};
    ghost use Rattle.cmd_state.specs.Inside.{command_of, IsKept};

    ghost Value = { CommandState };

    ghost view = { command_of };

    ghost invariant = { IsKept };
}

impl RunningCommand {
    /// A command for which nothing was done: a server is to be selected.
    pub fn new(command: &Command) -> RunningCommand
        ensures new { result ≡ fresh_command command.now }
    {
        RunningCommand {
            machine: OpMachine::new(is_write(command), is_retryable(command)),
            selection: None,
            selected: None,
            first_tried: None,
            second_tried: None,
            check_out: CheckOut::Nothing,
            dialled: None,
            asked: None,
            session: None,
            number: None,
            is_dirty: false,
            is_finished: false,
        }
    }

    /// What is to be done next (Retryable Writes, Executing Retryable Write Commands).
    pub fn next(&self) -> Next
        ensures next { result ≡ self.now.op.next }
    {
        self.machine.next()
    }

    /// Its selection, where one goes on.
    pub fn selection(&self) -> Option<Selection>
        ensures selection { option_map selection_of result ≡ self.now.selection }
    {
        self.selection
    }

    /// The server that it chose, until that attempt ended.
    pub fn selected(&self) -> Option<&Selected>
        ensures selected { option_map (λ s. selected_of s.now) result ≡ self.now.selected }
    {
        self.selected.as_ref()
    }

    /// The server of its first attempt, where that ended: a second one avoids it (Server Selection, deprioritized servers).
    pub fn first_tried(&self) -> Option<u32>
        ensures first { result ≡ first_tried self.now.tried }
    {
        match self.first_tried {
            Some(host) => Some(host),
            None => self.second_tried,
        }
    }

    /// Where it is with a pool.
    pub fn check_out(&self) -> CheckOut
        ensures check_out { check_out_of result ≡ self.now.check_out }
    {
        self.check_out
    }

    /// When it dialled a connection, in microseconds, until that attempt ended.
    pub fn dialled(&self) -> Option<u64>
        ensures dialled { result ≡ self.now.dialled }
    {
        self.dialled
    }

    /// When its request was queued, in microseconds, until that attempt ended.
    pub fn asked(&self) -> Option<u64>
        ensures asked { result ≡ self.now.asked }
    {
        self.asked
    }

    /// The place of the session that it holds.
    pub fn session(&self) -> Option<usize>
        ensures session { result ≡ self.now.session }
    {
        self.session
    }

    /// Its transaction number, where it drew one.
    pub fn number(&self) -> Option<i64>
        ensures number { result ≡ self.now.number }
    {
        self.number
    }

    /// Whether an attempt failed once its request was queued (Driver Sessions, Dirty sessions).
    pub fn is_dirty(&self) -> bool
        ensures dirty { result ≡ self.now.is_dirty }
    {
        self.is_dirty
    }

    /// Whether it was answered.
    pub fn is_finished(&self) -> bool
        ensures finished { result ≡ self.now.is_finished }
    {
        self.is_finished
    }

    /// Whether its attempt goes on at that server (Server Selection, operationCount).
    pub fn is_at(&self, host: u32) -> bool
        ensures at { result ≡ is_at host self.now }
    {
        match &self.selected {
            Some(selected) => selected.host == host,
            None => false,
        }
    }

    /// For how many minutes it needs a session, where it needs one and has none yet (Driver Sessions, implicit sessions).
    pub fn minutes_needed(&self) -> Option<i64>
        ensures minutes { result ≡ minutes_needed self.now }
    {
        if self.session.is_some() {
            return None;
        }
        match &self.selected {
            Some(selected) => selected.minutes,
            None => None,
        }
    }

    /// Whether it is to draw a transaction number and has none yet (Retryable Writes, Generating Transaction Identifiers).
    pub fn needs_number(&self) -> bool
        ensures needs { result ≡ needs_number self.now }
    {
        self.machine.drew() && self.number.is_none()
    }
}
