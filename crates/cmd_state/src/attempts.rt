ghost use Rattle.std.specs.Prelude.{◌≡◌, ◌++◌, ◌||◌, ◌&&◌, true, None, Some, IsSome, is_some, option_to_list};
ghost use Rattle.std.specs.Option.{option_map};
ghost use Rattle.write_retry.specs.Machine.{allows};
ghost use Rattle.write_retry.specs.declared.events.OpEvent.TheVariants as event;
ghost use Rattle.desk_trail.specs.Attempts.{end_by, end_event, finished, host_of, is_failure, with_event};
ghost use Rattle.cmd_state.specs.Inside.{selected_of};

use crate::{RunningCommand, Selected};
use write_retry::{AttemptEnd, OpEvent};

/// Whether an attempt failed, so that its session is dirty where its request was queued (Driver Sessions, Dirty sessions).
fn is_failure(end: &AttemptEnd) -> bool
    ensures failure { result ≡ is_failure end.now }
{
    match end {
        AttemptEnd::Replied(_) | AttemptEnd::Unsent(_) => false,
        AttemptEnd::Cut | AttemptEnd::Fault | AttemptEnd::TimedOut | AttemptEnd::Bad { .. } => true,
    }
}

/// What the end of an attempt tells the command.
fn event_of(end: AttemptEnd) -> OpEvent
    ensures event { result ≡ end_event end }
{
    match end {
        AttemptEnd::Replied(reading) => OpEvent::Replied(reading),
        AttemptEnd::Cut => OpEvent::Cut,
        AttemptEnd::Fault => OpEvent::Fault,
        AttemptEnd::TimedOut => OpEvent::TimedOut,
        AttemptEnd::Bad { at } => OpEvent::Bad { at },
        AttemptEnd::Unsent(unsent) => OpEvent::Unsent(unsent),
    }
}

/// The server that was chosen.
fn host_of(selected: &Option<Selected>) -> Option<u32>
    ensures host { option_to_list result ≡ host_of (option_map selected_of selected.now) }
{
    selected.as_ref().map(|selected| selected.host)
}

/// The first and the second of the servers that were tried, with one more.
fn tried_with(
    first: Option<u32>,
    second: Option<u32>,
    chosen: Option<u32>,
) -> (Option<u32>, Option<u32>)
    requires room { second ≡ None }
    ensures tried { option_to_list result.0 ++ option_to_list result.1
        ≡ (option_to_list first ++ option_to_list second) ++ option_to_list chosen }
    ensures two { IsSome result.1 → IsSome first }
{
    if first.is_some() {
        (first, chosen)
    } else {
        (chosen, None)
    }
}

/// Whether a command's session is dirty behind the end of an attempt (Driver Sessions, Dirty sessions).
fn is_dirty_behind(was: bool, asked: Option<u64>, end: &AttemptEnd) -> bool
    ensures dirty { result ≡ (was || is_some asked && is_failure end.now) }
{
    was || asked.is_some() && is_failure(end)
}

impl RunningCommand {
    /// Its request was queued.
    pub fn ask(&mut self, moment: u64)
        requires sends { allows self.old.op.next event.Sent ≡ true }
        ensures asked { self.new ≡ with_event event.Sent (record self.old { asked = Some moment }) }
    {
        self.asked = Some(moment);
        self.machine.on(OpEvent::Sent);
    }

    /// Its attempt ended.
    pub fn end(&mut self, end: AttemptEnd)
        requires awaited { allows self.old.op.next (end_event end) ≡ true }
        ensures ended { self.new ≡ with_event (end_event end) (end_by end self.old) }
    {
        let chosen = host_of(&self.selected);
        let (first, second) = tried_with(self.first_tried, self.second_tried, chosen);
        self.is_dirty = is_dirty_behind(self.is_dirty, self.asked, &end);
        self.first_tried = first;
        self.second_tried = second;
        self.selected = None;
        self.dialled = None;
        self.asked = None;
        self.machine.on(event_of(end));
    }

    /// It was answered.
    pub fn finish(&mut self)
        ensures finished { self.new ≡ finished self.old }
    {
        self.selected = None;
        self.is_finished = true;
    }
}
