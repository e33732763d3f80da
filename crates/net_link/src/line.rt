ghost use Rattle.std.specs.Prelude.{◌≡◌, ◌≤◌, length, take};
ghost use Rattle.net_link.specs.Script.{opened, piece_size, shut, skipped};

use crate::StreamPlan;
use std::marker::Model;

/// A stream of a scripted net.
#[derive(Debug, Drop)]
pub struct Line {
    plan: StreamPlan,
    place: usize,
    live: bool,
}

impl Model for Line {
    ghost use Rattle.std.specs.Prelude.{◌≤◌, drop, length};
    ghost use Rattle.net_link.specs.Script as script;

    ghost Value = { script.Line };

    ghost view = { λ l. record { left = drop l.place l.plan.bytes; most = l.plan.most; ends = l.plan.ends; live = l.live } };

    ghost invariant = { λ l. l.place ≤ length l.plan.bytes };
}

impl Line {
    /// An open stream.
    pub fn new(plan: StreamPlan) -> Line
        ensures { result ≡ opened plan }
    {
        Line {
            plan,
            place: 0,
            live: true,
        }
    }

    /// Whether the peer ends it behind its bytes.
    pub fn ends(&self) -> bool
        ensures { result ≡ self.now.ends }
    {
        self.plan.ends
    }

    /// What the next read hands out into a piece of that size.
    pub fn front(&self, room: usize) -> &[u8]
        ensures { result.now ≡ take (piece_size room self.now) self.now.left }
    {
        let left = &self.plan.bytes.as_slice()[self.place..];
        let most = self.plan.most.max(1) as usize;
        &left[..room.min(most.min(left.len()))]
    }

    /// Takes bytes from the inbox.
    pub fn skip(&mut self, count: usize)
        requires { count ≤ length self.old.left }
        ensures { self.new ≡ skipped count self.old }
    {
        let left = self.plan.bytes.len() - self.place;
        prove!(count <= left);
        self.place += count;
    }

    /// Closes it.
    pub fn shut(&mut self)
        ensures { self.new ≡ shut self.old }
    {
        self.live = false;
    }
}
