ghost use Rattle.std.specs.Prelude.{◌≡◌, [], ◌∷◌, ◌++◌, ◌<◌, ◌≤◌, IfOk, OnOk};
ghost use Rattle.soak_plan.specs.Plans.{acts_by, elected_by, next_member, plan_of, planned};

use crate::Draws;
use bson_doc::{Memory, Rows};
use member_hall::{Act, Planned};
use std::alloc::Global;

/// The plan of a seed: so many acts, each within forty turns of its own. An election, and that the one elected before it follows,
/// count as one.
pub fn plan(alloc: Global, seed: u64, count: u32) -> Result<Rows<Planned>, Memory>
    requires { count ≤ 10000 }
    ensures { IfOk result (λ acts. acts ≡ plan_of seed count) }
{
    let mut acts = Rows::new(alloc);
    let mut draws = Draws::new(seed);
    let mut elected = 0;
    for number in 0..count {
        let turn = 40 * (u64::from(number) + 1) + draws.draw() % 40;
        let kind = draws.draw() % 5;
        push_acts(&mut acts, kind, turn, elected)?;
        elected = elected_behind(kind, elected);
    }
    Ok(acts)
}

/// Appends what happens at a turn, where that member was elected last.
fn push_acts(acts: &mut Rows<Planned>, kind: u64, turn: u64, elected: u32) -> Result<(), Memory>
    requires { elected < 3 }
    ensures { OnOk result (acts.new ≡ acts.old ++ acts_by kind turn elected) }
{
    let host = elected;
    match kind {
        0 => push(acts, turn, Act::Mute { host }),
        1 => push(acts, turn, Act::Drop { host }),
        2 => push(acts, turn, Act::Hold { host, turns: 3 }),
        3 => push(acts, turn, Act::Late { host, turns: 30 }),
        _ => push_election(acts, turn, elected),
    }
}

/// Appends that the next member is elected, and that the one elected before it follows.
fn push_election(acts: &mut Rows<Planned>, turn: u64, elected: u32) -> Result<(), Memory>
    requires { elected < 3 }
    ensures { OnOk result (acts.new ≡ acts.old ++ planned turn (Act.Elect (next_member elected)) ∷ planned turn (Act.Follow elected) ∷ []) }
{
    let host = member_behind(elected);
    push(acts, turn, Act::Elect { host })?;
    push(acts, turn, Act::Follow { host: elected })
}

/// Appends an act at a turn.
fn push(acts: &mut Rows<Planned>, turn: u64, act: Act) -> Result<(), Memory>
    ensures { OnOk result (acts.new ≡ acts.old ++ planned turn act ∷ []) }
{
    acts.push(Planned { turn, act })
}

/// Who was elected last behind an act.
fn elected_behind(kind: u64, elected: u32) -> u32
    requires { elected < 3 }
    ensures elected { result ≡ elected_by kind elected }
    ensures member { result < 3 }
{
    if kind < 4 {
        elected
    } else {
        member_behind(elected)
    }
}

/// Of three members the next one.
fn member_behind(elected: u32) -> u32
    requires { elected < 3 }
    ensures next { result ≡ next_member elected }
    ensures member { result < 3 }
{
    (elected + 1) % 3
}
