ghost use Rattle.std.specs.Prelude.{◌≡◌, ◌≢◌, ◌≤◌, ◌^◌, ℕ, length, IfOk, IsSome, OnErr};
ghost use Rattle.desk_trail.specs.Clients.{Client};
ghost use Rattle.desk_trail.specs.Looks.{IsLook, first_look};
ghost use Rattle.desk_trail.specs.States.{ClientState, number_from};
ghost use Rattle.server_look.specs.Inputs.{AreNamed, IsBy, IsDescribed, IsOf, IsRunBy, IsTimely};
ghost use Rattle.server_look.specs.Told.{HasNumber, Says, TellsOf};

use crate::checked::deadline;
use crate::criteria::criteria_of;
use crate::loads::InFlight;
use crate::numbers::{number_at, numbers_of};
use crate::{Asking, Input, Memory};
use bson_doc::{Buffer, Rows};
use desk_trail::LookedHow;
use server_pick::{Picked, Picker, pick_by};
use server_state::Server;
use std::alloc::{AllocError, Global};

/// What a look came to.
#[derive(Debug, Drop)]
pub struct LookAnswer {
    /// The numbers of the servers that the picker kept, in the order of hosts.
    pub kept: Rows<u32>,
    /// What it says.
    pub how: LookedHow,
}

/// What a look says of a selection.
fn told(servers: &[Server], picked: &Picked, is_late: bool) -> LookedHow
    requires few { length servers.now ≤ 2 ^ 32 }
    requires tells { TellsOf (HasNumber servers.now) picked.now }
    ensures says { Says servers.now picked.now is_late result }
{
    match picked {
        Picked::Chosen(host) => LookedHow::Chosen {
            host: number_at(servers, host),
        },
        Picked::Incompatible { host, .. } => LookedHow::Incompatible {
            host: number_at(servers, host),
        },
        _ => {
            if is_late {
                LookedHow::Failed
            } else {
                LookedHow::NoneFits
            }
        }
    }
}

/// A command looks for a server (Server Selection, Server Selection Algorithm). It may ([`may_look`](crate::may_look)).
pub fn look<P: Picker>(
    alloc: Global,
    input: Input<'_>,
    asking: Asking<'_>,
    picker: &mut P,
) -> Result<LookAnswer, Memory>
    requires few { length input.servers.now ≤ 2 ^ 32 }
    requires named { AreNamed input.topology.now.servers input.servers.now }
    requires first { first_look asking.running.now asking.moment ≤ 2 ^ 62 }
    requires timely { IsTimely input.settings.now input.servers.now asking.running.now asking.moment }
    ensures looks { IfOk result (λ l. (client : Client) (w : ClientState) (op : ℕ) → IsOf client w input.entry → IsBy client w op asking.entry
        → IsLook client w asking.entry.moment op asking.entry.words.0 asking.entry.words.1 l.kept l.how) }
    ensures run { IfOk result (λ l. (client : Client) (w : ClientState) → IsOf client w input.entry
        → IsRunBy P.allows P.follows client w asking.entry.command.now.act asking.entry.running.now picker.old l.kept picker.new) }
    ensures described { IfOk result (λ l. IsDescribed input.entry.topology.now.servers input.entry.servers.now l.how) }
    ensures unasked { OnErr result (picker.new ≡ picker.old) }
{
    let mut numbers = Buffer::new(alloc);
    numbers.reserve(input.topology.len())?;
    let criteria = criteria_of(input, asking);
    let loads = InFlight {
        servers: input.servers,
        counts: input.in_flight,
    };
    let is_late = deadline(input.settings, asking.running, asking.moment) <= asking.moment;
    let (a, b) = asking.words;
    let mut kept = Rows::new(alloc);
    let picked = pick_by(
        alloc,
        input.topology,
        &criteria,
        picker,
        &loads,
        a,
        b,
        &mut kept,
    );
    if let Picked::Memory = picked {
        return Err(AllocError);
    }
    let how = told(input.servers, &picked, is_late);
    let kept = numbers_of(input.servers, kept.as_slice(), numbers);
    Ok(LookAnswer { kept, how })
}
