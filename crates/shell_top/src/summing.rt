//! What a client and its members come to, summed up.
ghost use Rattle.std.specs.Prelude.{◌≡◌, ◌≤◌, ℕ, List, IfOk, length, map};
ghost use Rattle.std.specs.List.{range_with_len};
ghost use Rattle.entry_judge.specs.declared.timed.Timed.{Timed};
ghost use Rattle.desk_trail.specs.Clients.{Client};
ghost use Rattle.desk_trail.specs.Facts.{Fact};
ghost use Rattle.effect_count.specs.Counts.{effects_by};
ghost use Rattle.member_core.specs.Logs.{set_after};
ghost use Rattle.write_effects.specs.Effects.{TakesEffectOnce};
ghost use Rattle.shell_top.specs.Soak.{IsIndexed, IsPlayed};
ghost use Rattle.shell_top.specs.Summary.{greatest as greatest_of, of_writes as sum_of_writes, summary_of};

use crate::report::count_ok;
use crate::summary::{Summary, attempts_in, count_writes, greatest, of_writes};
use bson_doc::Memory;
use cmd_build::Command;
use desk_core::Finished;
use effect_count::RequestIndex;
use member_hall::Hall;
use std::alloc::{AllocError, Global};
use trail_tally::Tally;

/// Sums up what came of a client's commands, and what its members did.
pub fn summary_of<P>(
    alloc: Global,
    finished: &Finished<Hall, P>,
    tallies: &[Tally],
) -> Result<Summary, Memory>
    requires few { length tallies.now ≤ 100000 }
    requires count { length tallies.now ≡ length finished.now.commands }
    ensures { IfOk result (λ s. (client : Client) → IsPlayed client finished.now tallies.now
        → s ≡ summary_of client finished.now.trail finished.now.net) }
{
    let commands = finished.commands.as_slice();
    let index = RequestIndex::of(alloc, &finished.trail)?;
    Ok(Summary {
        commands: commands.len() as u32,
        ok: count_ok(tallies),
        attempts: attempts_in(finished.trail.steps.as_slice()),
        elections: finished.net.elections(),
        writes: count_writes(commands),
        effects: effects_of_writes(alloc, &index, &finished.net, commands)?,
        most: most_effects(alloc, &index, &finished.net, commands.len())?,
    })
}

/// How often the commands that may change data took effect, by the log of the member that was elected last.
fn effects_of_writes(
    alloc: Global,
    index: &RequestIndex,
    hall: &Hall,
    commands: &[Command],
) -> Result<u64, Memory>
    requires few { length commands.now ≤ 100000 }
    ensures { IfOk result (λ n. (client : Client) (facts : List (Timed Fact)) → IsIndexed client facts index.now → client.commands ≡ commands.now
        → ((op : ℕ) → TakesEffectOnce client facts hall.now.events op)
        → n ≡ sum_of_writes client.commands (effects_by client facts ((set_after hall.now.events).log (set_after hall.now.events).last))) }
{
    let last = hall.last_elected();
    // (cannot be: the one that was elected last is a member)
    if last >= hall.members() {
        return Err(AllocError);
    }
    let counts = index.effects(alloc, hall.log(last).as_slice(), commands.len())?;
    Ok(of_writes(commands, &counts))
}

/// How often a command took effect at most, by the log of any member.
fn most_effects(
    alloc: Global,
    index: &RequestIndex,
    hall: &Hall,
    count: usize,
) -> Result<u64, Memory>
    ensures { IfOk result (λ n. (client : Client) (facts : List (Timed Fact)) → IsIndexed client facts index.now → length client.commands ≡ count
        → n ≡ greatest_of (map (λ member. greatest_of (effects_by client facts ((set_after hall.now.events).log member))) (range_with_len 0 (length hall.now.peers)))) }
{
    let mut most = 0;
    'members: for member in 0..hall.members() {
        let counts = index.effects(alloc, hall.log(member).as_slice(), count)?;
        most = most.max(greatest(&counts));
    }
    Ok(most)
}
