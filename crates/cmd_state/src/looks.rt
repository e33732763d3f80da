ghost use Rattle.std.specs.Prelude.{◌≡◌, ℕ, ◌^◌, ◌≤◌, None, Some, length};
ghost use Rattle.write_retry.specs.declared.events.Next.TheVariants as next_of;
ghost use Rattle.write_retry.specs.declared.events.OpEvent.TheVariants as event;
ghost use Rattle.desk_trail.specs.declared.entry.LookedHow.TheVariants as looked;
ghost use Rattle.desk_trail.specs.Attempts.{with_event};
ghost use Rattle.desk_trail.specs.Looks.{look_by, selected_of as selected_at};
ghost use Rattle.desk_trail.specs.States.{ClientState};
ghost use Rattle.cmd_state.specs.Inside.{selected_of};

use crate::{RunningCommand, Selected, Selection};
use write_retry::OpEvent;

impl RunningCommand {
    /// A look found no suitable server yet, when so many hosts had been named: the selection goes on.
    pub fn wait_for_server(&mut self, moment: u64, known: usize)
        ensures waits { (w : ClientState) → length w.servers ≡ known → self.new ≡ look_by w moment looked.NoneFits self.old }
    {
        let first = match self.selection {
            Some(selection) => selection.first,
            None => moment,
        };
        self.selection = Some(Selection { first, known });
    }

    /// A look chose a server; `numbered` says whether transaction numbers are drawn there.
    pub fn choose(&mut self, selected: Selected, numbered: bool)
        requires selects { self.old.op.next ≡ next_of.Select }
        ensures chosen { (w : ClientState) (moment : ℕ) → selected_at w selected.host ≡ Some (selected_of selected)
            → self.new ≡ with_event (event.Chosen selected.host numbered) (look_by w moment (looked.Chosen selected.host) self.old) }
    {
        let host = selected.host;
        self.selection = None;
        self.selected = Some(selected);
        self.machine.on(OpEvent::Chosen { host, numbered });
    }

    /// A look found no suitable server in time.
    pub fn find_none(&mut self)
        requires selects { self.old.op.next ≡ next_of.Select }
        ensures failed { (w : ClientState) (moment : ℕ) → self.new ≡ with_event event.NoServer (look_by w moment looked.Failed self.old) }
    {
        self.selection = None;
        self.machine.on(OpEvent::NoServer);
    }

    /// A look found a server that speaks no wire version of this client.
    pub fn find_incompatible(&mut self, host: u32, min: i32, max: i32)
        requires selects { self.old.op.next ≡ next_of.Select }
        ensures failed { (w : ClientState) (moment : ℕ)
            → self.new ≡ with_event (event.Incompatible host min max) (look_by w moment (looked.Incompatible host) self.old) }
    {
        self.selection = None;
        self.machine.on(OpEvent::Incompatible { host, min, max });
    }
}
