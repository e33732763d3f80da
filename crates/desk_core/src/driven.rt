ghost use Rattle.std.specs.Prelude.{◌≡◌, ◌≢◌, ◌≤◌, ◌<◌, ◌+◌, ◌^◌, ℕ, Some, true, false, length, IfNone, IfOk, IfSome};
ghost use Rattle.net_link.specs.Causes.{HasCause};
ghost use Rattle.net_link.specs.Seen.{seen};
ghost use Rattle.topo_rules.specs.Laws.{listed_by};
ghost use Rattle.desk_wire.specs.declared.answers.Pulled.{Pulled as Answer};
ghost use Rattle.desk_trail.specs.declared.entry.CheckHow.TheVariants as how_as;
ghost use Rattle.desk_trail.specs.declared.entry.Entry.TheVariants as entry_of;
ghost use Rattle.desk_trail.specs.Checks.{kept_at};
ghost use Rattle.desk_trail.specs.Clients.{Client, connect_limit};
ghost use Rattle.desk_trail.specs.Facts as fact;
ghost use Rattle.desk_trail.specs.Legal.{StandsAt};
ghost use Rattle.desk_trail.specs.Written.{an_entry};
ghost use Rattle.legal_trail.specs.Recorded.{Adds};
ghost use Rattle.wired_trail.specs.Faults.{IsUntold};
ghost use Rattle.wired_trail.specs.Hearing.{TellsHeard, told_of};
ghost use Rattle.wired_trail.specs.Lines.{IsThere, KeepsOthers};
ghost use Rattle.desk_core.specs.Driven.{IsKeptIdle, IsStillUsed};
ghost use Rattle.desk_core.specs.Ends.{IsEndBy, IsOfReply};
ghost use Rattle.desk_core.specs.Hearing.{HearsCheck};

use crate::Memory;
use crate::check_result::{CheckResult, Running, result_of};
use conn_uri::Settings;
use desk_trail::{CheckHow, Entry};
use net_link::Net;
use std::alloc::Global;
use wired_trail::WiredTrail;

/// Until when the answer of a check is waited for that began at a moment (Server Monitoring, connectTimeoutMS).
pub fn limit_of(settings: &Settings, began: u64) -> u64
    requires { began ≤ 2 ^ 62 }
    ensures { (client : Client) → client.settings ≡ settings.now → result ≡ began + connect_limit client }
{
    began + settings.connect_ms * 1_000
}

/// Whether a stream is kept for the next check behind this end of one.
fn keeps_stream(how: &CheckHow) -> bool
    ensures yes { result ≡ true → (sample : ℕ) × (how.now ≡ how_as.Reply sample) }
    ensures no { result ≡ false → (sample : ℕ) → how.now ≢ how_as.Reply sample }
{
    matches!(how, CheckHow::Reply { .. })
}

/// Closes the stream of a check that ended, where it is in use still and the next check does not go on with it.
fn close_behind<N: Net>(wired: &mut WiredTrail<N>, stream: u64, how: &CheckHow)
    ensures trail { wired.new.trail ≡ wired.old.trail }
    ensures others { KeepsOthers stream wired.old.lines wired.new.lines }
    ensures kept { (sample : ℕ) → how.now ≡ how_as.Reply sample → wired.new.lines ≡ wired.old.lines }
    ensures seen { N.tells → (other : ℕ) → seen other (N.history wired.new.net) ≡ seen other (N.history wired.old.net) }
    ensures faults { N.faults wired.old.net ≤ N.faults wired.new.net }
{
    if keeps_stream(how) {
        return;
    }
    if wired.use_of(stream).is_some() {
        wired.close(stream);
    }
}

/// A check of a server on a stream.
#[derive(Clone, Copy)]
pub struct EndAt {
    /// The server's number.
    pub host: u32,
    /// The stream.
    pub stream: u64,
}

/// Writes that a check which ran ended, and how: what became of its hello on its stream; of a reply that is told by its event.
pub fn tell_end<N: Net>(wired: &mut WiredTrail<N>, moment: u64, at: EndAt, how: CheckHow)
    requires room { 1 ≤ wired.old.trail.room.steps }
    requires stands { StandsAt wired.old.trail.client wired.old.trail.point (record { at = moment; what = fact.CheckEnded at.host how }) }
    requires ran { how ≢ how_as.NoDial }
    requires on { kept_at wired.old.trail.point.state at.host ≡ Some at.stream }
    requires heard { N.tells → TellsHeard (N.history wired.old.net) wired.old.trail moment (fact.CheckEnded at.host how) }
    requires counted { how ≡ how_as.Fault → IsUntold (N.faults wired.old.net) wired.old.trail.steps }
    ensures adds { Adds an_entry wired.old.trail.lists moment (entry_of.CheckEnded at.host how) (fact.CheckEnded at.host how) wired.old.trail wired.new.trail }
    ensures same { wired.new ≡ record wired.old { trail = wired.new.trail } }
    ensures silent { (sample : ℕ) → how ≡ how_as.Reply sample → (stream : ℕ) → told_of wired.new.trail stream ≡ told_of wired.old.trail stream }
{
    let EndAt { host, stream } = at;
    let entry = Entry::CheckEnded { host, how };
    if keeps_stream(&how) {
        wired.append(moment, entry);
    } else {
        wired.tell(moment, entry, Some(stream));
    }
}

/// A turn on the stream of a check that runs. None where its answer is still waited for; else its end, behind which the stream is
/// closed where the next check does not go on with it.
pub fn drive<N: Net>(
    alloc: Global,
    wired: &mut WiredTrail<N>,
    stream: u64,
    check: Running<'_>,
    moment: u64,
) -> Result<Option<CheckResult>, Memory>
    requires hosts { check.hosts ≤ 2 ^ 32 }
    requires there { IsThere wired.old.lines stream }
    ensures trail { wired.new.trail ≡ wired.old.trail }
    ensures others { KeepsOthers stream wired.old.lines wired.new.lines }
    ensures early { IfOk result (λ r. IfNone r (moment < check.entry.limit)) }
    ensures waits { IfOk result (λ r. IfNone r (IsStillUsed wired.old.lines wired.new.lines stream)) }
    ensures kept { IfOk result (λ r. IfSome r (λ end. (sample : ℕ) → end.how ≡ how_as.Reply sample → IsKeptIdle wired.old.lines wired.new.lines stream)) }
    ensures ends { IfOk result (λ r. IfSome r (λ end. (answer : Answer)
        × IsEndBy check.entry.host.now check.entry.began check.entry.limit moment answer end.event end.how)) }
    ensures timed { IfOk result (λ r. IfSome r (λ end. IsOfReply end.how end.time)) }
    ensures few { IfOk result (λ r. IfSome r (λ end. check.entry.hosts + length (listed_by end.event) ≤ 2 ^ 32)) }
    ensures faults { N.faults wired.old.net ≤ N.faults wired.new.net }
    ensures heard { N.tells → IfOk result (λ r. IfSome r (λ end.
        HearsCheck (N.history wired.new.net) wired.new.trail stream check.entry.hello check.entry.hosts end.how end.event end.time)) }
    ensures cause { IfOk result (λ r. IfSome r (λ end. HasCause (N.faults wired.old.net) (N.faults wired.new.net) (end.how ≡ how_as.Fault))) }
    ensures counted { IfOk result (λ r. IfSome r (λ end. end.how ≡ how_as.Fault → IsUntold (N.faults wired.new.net) wired.new.trail.steps)) }
{
    let pulled = wired.turn(alloc, stream, check.hello);
    match result_of(alloc, check, moment, pulled)? {
        None => Ok(None),
        Some(end) => {
            close_behind(wired, stream, &end.how);
            Ok(Some(end))
        }
    }
}
