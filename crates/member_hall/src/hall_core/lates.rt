//! Late requests: which streams hold one, and what becomes of it.
ghost use Rattle.std.specs.Prelude.{◌≡◌, ◌<◌, ◌≤◌, ◌∷◌, ◌++◌, [], is_some, length, true, None, OnOk, OnErr, vec_capacity, vec_len, if◌then◌else◌};
ghost use Rattle.member_hall.specs.Halls.{line_at};
ghost use Rattle.member_hall.specs.Inside.{NoneLate, is_late};
ghost use Rattle.member_hall.specs.Playing.{Plays};
ghost use Rattle.member_hall.specs.Turns.{come_late, late_on};

use super::HallCore;
use crate::Memory;
use crate::line::Line;
use crate::requests::handle_late;

impl HallCore {
    /// A stream's late request is handled if its turn has come.
    fn handle_late_on(&mut self, stream: u64) -> Result<(), Memory>
        requires { stream < length self.old.lines }
        ensures ok { OnOk result (self.new ≡ late_on stream self.old) }
        ensures err { OnErr result (self.new ≡ self.old) }
        ensures plays { Plays self.old self.new }
    {
        let at = self.place_in(stream);
        let peer = &mut self.peers[at.member as usize];
        let line = &mut self.lines[stream as usize];
        let kept = handle_late(at, peer, line, &mut self.log)?;
        self.shares.answer(at.member, self.last, kept);
        Ok(())
    }

    /// A stream holds no late request.
    fn forget_late(&mut self, stream: u64)
        requires { (line_at self.old.lines stream).late ≡ None }
        ensures { self.new ≡ self.old }
    {
        self.late.retain(|other| *other != stream);
    }

    /// Whether a stream's late request is to be handled.
    fn is_late(&self, stream: u64) -> bool
        requires { stream < length self.now.lines }
        ensures { result ≡ is_late self.now.turn (line_at self.now.lines stream).late }
    {
        let line = &self.lines[stream as usize];
        match &line.late {
            Some(late) => late.due <= self.turn,
            None => false,
        }
    }

    /// The first stream from that one on whose late request is to be handled, the number of the next stream where there is none.
    fn next_late(&self, from: u64) -> u64
        requires { from ≤ length self.now.lines }
        ensures within { (from ≤ result) × (result ≤ length self.now.lines) }
        ensures first { NoneLate self.now from result }
        ensures late { result < length self.now.lines → is_late self.now.turn (line_at self.now.lines result).late ≡ true }
    {
        let mut next = self.lines.len() as u64;
        for stream in self.late.as_slice() {
            if from <= *stream && *stream < next && self.is_late(*stream) {
                next = *stream;
            }
        }
        next
    }

    /// How many streams there are.
    fn count(&self) -> u64
        ensures { result ≡ length self.now.lines }
    {
        self.lines.len() as u64
    }

    /// The late requests whose turn has come are handled, in the order of their streams.
    pub(super) fn handle_late_requests(&mut self) -> Result<(), Memory>
        ensures ok { OnOk result (self.new ≡ come_late self.old) }
        ensures plays { Plays self.old self.new }
    {
        let mut stream = self.next_late(0);
        'handling: while stream < self.count() {
            self.handle_late_on(stream)?;
            self.forget_late(stream);
            stream = self.next_late(stream + 1);
        }
        Ok(())
    }
}

/// The stream joins those that hold a late request, if it does. There is room for it.
pub(super) fn note_late(late: &mut Vec<u64>, stream: u64, line: &Line)
    requires { vec_len late.old < vec_capacity late.old }
    ensures { late.new.items ≡ (if is_some line.now.late then late.old.items ++ stream ∷ [] else late.old.items) }
{
    if line.late.is_some() {
        late.push_reserved(stream);
    }
}
