//! The acts of a plan that have not happened.
ghost use Rattle.std.specs.Prelude.{◌≡◌, ◌<◌, ◌+◌, ◌^◌, true, false, drop, length, remove};
ghost use Rattle.member_hall.specs.Halls.{plan_at};
ghost use Rattle.member_hall.specs.Orders.{ActsFrom, IsInOrder};

use crate::Planned;
use bson_doc::Rows;
use std::marker::Model;

/// The acts that have not happened, in the plan's order. Where that is the order of their turns, the acts whose turn has come stand
/// at the front, and no other is looked at: a run of so many acts takes time for each act, and for each turn.
#[derive(Debug, Drop)]
pub(crate) struct Plan {
    acts: Vec<Planned>,
    /// How many at the front have happened.
    gone: usize,
    /// Whether the others stand in the order of their turns.
    is_in_order: bool,
}

impl Model for Plan {
    ghost use Rattle.std.specs.Prelude.{List, drop};
    ghost use Rattle.member_hall.specs.declared.act.Planned.{Planned};
    ghost use Rattle.member_hall.specs.Orders.{IsPlan};

    ghost Value = { List Planned };

    ghost view = { λ p. drop p.gone p.acts.items };

    ghost invariant = { λ p. IsPlan p.gone p.is_in_order p.acts.items };
}

impl Plan {
    /// None of these acts has happened.
    pub(crate) fn new(acts: Rows<Planned>) -> Plan
        ensures { result ≡ acts }
    {
        let is_in_order = are_in_order(acts.as_slice());
        Plan {
            acts: acts.into_vec(),
            gone: 0,
            is_in_order,
        }
    }

    /// The act at a place.
    pub(crate) fn at(&self, place: usize) -> Planned
        requires { place < length self.now }
        ensures { result ≡ plan_at self.now place }
    {
        self.acts[self.gone + place]
    }

    /// Whether no act from a place on is of that turn or an earlier one, as far as that is known without a look at each of them.
    pub(crate) fn is_later(&self, place: usize, turn: u64) -> bool
        ensures later { result ≡ true → ActsFrom (turn + 1) (drop place self.now) }
        ensures there { result ≡ false → place < length self.now }
        ensures fits { result ≡ false → place + 1 < 2 ^ 64 }
    {
        if place >= self.acts.len() - self.gone {
            return true;
        }
        self.is_in_order && self.at(place).turn > turn
    }

    /// The act at a place happened.
    pub(crate) fn remove(&mut self, place: usize)
        requires { place < length self.old }
        ensures { self.new ≡ remove self.old place }
    {
        if place == 0 {
            self.gone += 1;
        } else {
            self.acts.remove(self.gone + place);
        }
    }
}

/// Whether acts stand in the order of their turns.
fn are_in_order(acts: &[Planned]) -> bool
    ensures { result ≡ true → IsInOrder acts.now }
{
    let mut place = acts.len();
    let mut turn = u64::MAX;
    'looking: while place > 0 {
        place -= 1;
        if acts[place].turn > turn {
            return false;
        }
        turn = acts[place].turn;
    }
    true
}
