ghost use Rattle.std.specs.Prelude.{◌≡◌, ℤ, [], true, None, Some, IfNone, IfSome, OnErr, OnOk};
ghost use Rattle.std.specs.Option.{option_map};
ghost use Rattle.wired_trail.specs.Inside.{KeepsPending, pending_at, queued_on, told_on};
ghost use Rattle.wired_trail.specs.declared.pending.Pending.TheVariants as is;

use crate::Memory;
use crate::pending::Pending;
use std::alloc::Global;
use std::collections::BTreeMap;
use std::marker::Model;

/// What is pending on each stream that is in use, by number.
#[derive(Drop)]
pub(crate) struct Pendings {
    pendings: BTreeMap<u64, Pending>,
}

impl Model for Pendings {
    ghost use Rattle.std.specs.Prelude.{ℕ, List};
    ghost use Rattle.wired_trail.specs.declared.pending.Pending.{Pending};

    ghost Value = { List (ℕ × Pending) };

    ghost view = { λ p. p.pendings.entries };
}

impl Pendings {
    /// No stream is in use. It takes no memory.
    pub(crate) fn new(alloc: Global) -> Pendings
        ensures { result ≡ [] }
    {
        Pendings {
            pendings: BTreeMap::new(alloc),
        }
    }

    /// What is pending on a stream; None where it is not in use.
    pub(crate) fn of(&self, stream: u64) -> Option<Pending>
        ensures { result ≡ pending_at self.now stream }
    {
        self.pendings.get(&stream).copied()
    }

    /// Whether a stream is in use, and nothing is pending on it.
    pub(crate) fn is_nothing(&self, stream: u64) -> bool
        ensures yes { result ≡ true → pending_at self.now stream ≡ Some is.Nothing }
    {
        matches!(self.of(stream), Some(Pending::Nothing))
    }

    /// Whether the request of that id waits for its answer on a stream.
    pub(crate) fn is_reply(&self, stream: u64, id: i32) -> bool
        ensures yes { result ≡ true → pending_at self.now stream ≡ Some (is.Reply id) }
    {
        match self.of(stream) {
            Some(Pending::Reply { id: waiting }) => waiting == id,
            Some(Pending::Nothing | Pending::Message | Pending::Over) | None => false,
        }
    }

    /// Whether a request waits for its answer on a stream.
    pub(crate) fn is_waiting(&self, stream: u64) -> bool
        ensures yes { result ≡ true → (id : ℤ) × (pending_at self.now stream ≡ Some (is.Reply id)) }
    {
        matches!(self.of(stream), Some(Pending::Reply { .. }))
    }

    /// A stream is in use now, and nothing is pending on it.
    pub(crate) fn add(&mut self, stream: u64) -> Result<(), Memory>
        ensures ok { OnOk result (pending_at self.new stream ≡ Some is.Nothing) }
        ensures others { OnOk result (KeepsPending stream self.old self.new) }
        ensures err { OnErr result (self.new ≡ self.old) }
    {
        match self.pendings.insert(stream, Pending::Nothing) {
            Ok(_) => Ok(()),
            Err(failed) => Err(failed.into()),
        }
    }

    /// That is pending on a stream now, where it is in use.
    pub(crate) fn set(&mut self, stream: u64, pending: Pending)
        ensures set { pending_at self.new stream ≡ option_map (λ _. pending) (pending_at self.old stream) }
        ensures others { KeepsPending stream self.old self.new }
    {
        if let Some(before) = self.pendings.get_mut(&stream) {
            *before = pending;
        }
    }

    /// The request of that id was queued on a stream: it waits for its answer, where nothing else was pending.
    pub(crate) fn queue(&mut self, stream: u64, id: i32)
        ensures queued { pending_at self.new stream ≡ option_map (queued_on id) (pending_at self.old stream) }
        ensures others { KeepsPending stream self.old self.new }
    {
        if let Some(before) = self.pendings.get_mut(&stream) {
            *before = before.queued(id);
        }
    }

    /// An entry tells what became of the last request on a stream, where there is one: nothing is pending where that was answered.
    pub(crate) fn tell(&mut self, stream: Option<u64>, answered: bool)
        ensures told { IfSome stream (λ s. pending_at self.new s ≡ option_map (told_on answered) (pending_at self.old s)) }
        ensures others { IfSome stream (λ s. KeepsPending s self.old self.new) }
        ensures none { IfNone stream (self.new ≡ self.old) }
    {
        let Some(stream) = stream else {
            return;
        };
        if let Some(before) = self.pendings.get_mut(&stream) {
            *before = before.told(answered);
        }
    }

    /// A stream is not in use any more.
    pub(crate) fn remove(&mut self, stream: u64)
        ensures gone { pending_at self.new stream ≡ None }
        ensures others { KeepsPending stream self.old self.new }
    {
        self.pendings.remove(&stream);
    }
}
