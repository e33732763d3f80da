ghost use Rattle.std.specs.Prelude.{◌≡◌, ◌≤◌, ◌^◌, [], All, None, Ok, Err, IfOk, IfErr, IsOk, IsSome, length, min, ℕ};
ghost use Rattle.std.specs.List.{list_all};
ghost use Rattle.net_link.specs.Causes.{HasCause};
ghost use Rattle.conn_uri.specs.Configurations.{Configuration};
ghost use Rattle.desk_share.specs.Shared.{Begins, HeardNothing, listeners_in, opened_by};
ghost use Rattle.desk_core.specs.Appends.{AreQuiet, TellsNone};
ghost use Rattle.desk_hooks.specs.Hearing.{AreTold};
ghost use Rattle.legal_trail.specs.Recorded.{told_in};
ghost use Rattle.trail_events.specs.Told.{told};
ghost use Rattle.script_text.specs.Bounds.{IsBounded};
ghost use Rattle.shell_top.specs.Report.{is_ok_tally, report_by};
ghost use Rattle.shell_top.specs.Run.{Did, IsDone, IsIdle, IsNothing, IsOfNet, IsReached, IsUsage, ReadsScript, RefusesWords, Reports, Runs, RunsGiven, Shows, Writes, given_of, no_trail};
ghost use Rattle.run_words.specs.Words.{asks};
ghost use Rattle.run_words.specs.declared.fault.UseFault.{UseFault};
ghost use Rattle.shell_top.specs.Soak.{Soaks};
ghost use Rattle.trail_tally.specs.Tallies.{AreTallies};

use crate::context::Context;
use crate::playing::{Played, play};
use crate::report::{is_ok, report_of};
use crate::soaking::{Soaked, soak};
use crate::status::{Ended, Given, Ran, Status};
use bson_doc::{Memory, Rows, Text};
use cmd_build::Command;
use conn_uri::Settings;
use desk_core::Finished;
use desk_hooks::{Ended as Left, HookedDesk};
use desk_share::laws::a_new_desk_begins;
use desk_share::{DrivenDesk, LaneClock, LaneGate, Opening, run_lanes};
use desk_trail::Trail;
use drv_events::laws::all_are_counted;
use drv_events::{Hooks, Listener};
use net_link::{Dice, Net, Sink, Source, write_all};
use run_words::{Task, WordStop, read_words};
use script_text::{ScriptRead, read_script};
use server_pick::Picker;
use std::alloc::Global;
use std::marker::Brand;
use std::sync::Wait;
use std::thread::Threads;
use trail_tally::{Tally, fresh_tallies};

/// Does what the words ask for, and writes what came of it.
///
/// `run URI`: reads the script, runs its commands over the deployment of the connection string, and writes a line for each and a last
/// one that counts them. A script that names two lanes or more has a thread for each lane, and commands of one lane run one after another;
/// any other is run on this thread, in its order. The gate is passed ahead of each command and behind it; lanes with threads of their own
/// do not pass one that is open. The words are judged before the script is read, and all of the script before anything is dialled. The
/// report is written behind the client's end.
///
/// `soak SEED N`: runs the commands that the seed gives over members of a replica set that are played in memory, to which happens
/// what the seed gives, and sums up in seven lines. Script, net, clock, dice and gate stay as they are; the seed gives its own.
///
/// The listeners hear what the client's trail tells, and the picker is asked of each server that may be selected; both come back.
pub fn run<
    R: Threads + Wait + Sync,
    S: Source,
    K: Sink,
    N: Net + Send,
    C: LaneClock + Send + Sync,
    D: Dice + Send,
    G: LaneGate + Sync,
>(
    rt: &R,
    alloc: Global,
    words: &Rows<Text>,
    script: &mut S,
    out: &mut K,
    net: N,
    clock: &C,
    dice: D,
    hooks: Hooks,
    picker: Box<dyn Picker>,
    gate: &G,
) -> Ended<N>
    // A net that tells has told nothing yet, and no listener has heard anything.
    requires fresh { N.tells → N.history net ≡ [] }
    requires unheard { All (λ b. (⟦<dyn Listener as Listener>⟧ b.vtable).heard b.value ≡ []) hooks.listeners.items }

    // Words that ask for nothing, and they alone, are refused, each for its fault; the script is not read then, and nothing is done.
    ensures usage { (fault : UseFault) → result.status ≡ Status.Usage fault → asks words.now ≡ Err fault }
    ensures in_form { (fault : UseFault) → asks words.now ≡ Err fault → RefusesWords fault result.status }
    ensures unread { IsUsage result.status → script.new ≡ script.old }
    ensures refused { (fault : UseFault) → asks words.now ≡ Err fault
        → (script.new ≡ script.old) × IsNothing (given_of net picker hooks) (given_of result.net result.picker result.hooks) result.trail K.tells K.written out.old out.new }

    // Words of a run: what was read of the script, that is its refusal, a failure to read it, and that all of it was read where its
    // commands were run.
    ensures script { (asked : Configuration) → asks words.now ≡ Ok (Task.Run asked)
        → ReadsScript S.tells S.left S.faults script.old script.new result.status }

    // Where the run ended before its first command, nothing was done: what was given comes back as it was, whether or not the net tells.
    ensures idle { IsIdle result.status
        → IsNothing (given_of net picker hooks) (given_of result.net result.picker result.hooks) result.trail K.tells K.written out.old out.new }

    // Else the commands of the script were run, and reported; or memory was wanting before that.
    ensures runs { (asked : Configuration) → asks words.now ≡ Ok (Task.Run asked) → IsReached result.status
        → Runs S.tells (S.left script.old) asked C.shows D.rolls N.faults (λ b. (⟦<dyn Listener as Listener>⟧ b.vtable).heard b.value)
        (λ client told. N.tells → IsOfNet (N.history result.net) client told) (given_of net picker hooks) (given_of result.net result.picker result.hooks)
        K.tells K.written out.old out.new result.status result.trail }

    // Words of a soak: its commands were run over members of its own, and summed up; or memory was wanting before that. The script
    // was not read, and the net stays as it was. Only a soak leaves members.
    ensures soaks { (seed count : ℕ) → asks words.now ≡ Ok (Task.Soak seed count) → IsReached result.status
        × Soaks seed count (λ b. (⟦<dyn Listener as Listener>⟧ b.vtable).heard b.value) hooks result.hooks K.tells K.written out.old out.new
        result.status result.trail result.soaked }
    ensures apart { (seed count : ℕ) → asks words.now ≡ Ok (Task.Soak seed count) → (script.new ≡ script.old) × (result.net ≡ net) }
    ensures soaked { IsSome result.soaked → (seed : ℕ) × (count : ℕ) × (asks words.now ≡ Ok (Task.Soak seed count)) }

    // A failure to write the report is the sink's.
    ensures cause { HasCause (K.faults out.old) (K.faults out.new) (result.status ≡ Status.WriteFault) }
{
    let context = Context {
        rt,
        alloc,
        clock,
        gate,
    };
    let given = Given { net, picker, hooks };
    let Ran {
        status,
        given,
        trail,
        soaked,
    } = run_by(context, words, script, out, given, dice);
    let Given { net, picker, hooks } = given;
    Ended {
        status,
        net,
        trail,
        hooks,
        picker,
        soaked,
    }
}

/// The same with a picker and listeners of any types.
fn run_by<
    R: Threads + Wait + Sync,
    S: Source,
    K: Sink,
    N: Net + Send,
    P: Picker,
    L: Listener,
    D: Dice + Send,
    C: LaneClock + Send + Sync,
    G: LaneGate + Sync,
>(
    context: Context<'_, R, C, G>,
    words: &Rows<Text>,
    script: &mut S,
    out: &mut K,
    given: Given<N, P, L>,
    dice: D,
) -> Ran<N, P, L>
    requires fresh { N.tells → N.history given.net ≡ [] }
    requires unheard { HeardNothing L.heard given.hooks.listeners.items }
    ensures usage { (fault : UseFault) → result.status ≡ Status.Usage fault → asks words.now ≡ Err fault }
    ensures in_form { (fault : UseFault) → asks words.now ≡ Err fault → RefusesWords fault result.status }
    ensures unread { IsUsage result.status → script.new ≡ script.old }
    ensures refused { (fault : UseFault) → asks words.now ≡ Err fault
        → (script.new ≡ script.old) × IsNothing given result.given result.trail K.tells K.written out.old out.new }
    ensures script { (asked : Configuration) → asks words.now ≡ Ok (Task.Run asked)
        → ReadsScript S.tells S.left S.faults script.old script.new result.status }
    ensures idle { IsIdle result.status → IsNothing given result.given result.trail K.tells K.written out.old out.new }
    ensures runs { (asked : Configuration) → asks words.now ≡ Ok (Task.Run asked) → IsReached result.status
        → Runs S.tells (S.left script.old) asked C.shows D.rolls N.faults L.heard (λ client told. N.tells → IsOfNet (N.history result.given.net) client told)
        given result.given K.tells K.written out.old out.new result.status result.trail }
    ensures soaks { (seed count : ℕ) → asks words.now ≡ Ok (Task.Soak seed count) → IsReached result.status
        × Soaks seed count L.heard given.hooks result.given.hooks K.tells K.written out.old out.new result.status result.trail result.soaked }
    ensures apart { (seed count : ℕ) → asks words.now ≡ Ok (Task.Soak seed count) → (script.new ≡ script.old) × (result.given.net ≡ given.net) }
    ensures soaked { IsSome result.soaked → (seed : ℕ) × (count : ℕ) × (asks words.now ≡ Ok (Task.Soak seed count)) }
    ensures cause { HasCause (K.faults out.old) (K.faults out.new) (result.status ≡ Status.WriteFault) }
{
    let alloc = context.alloc;
    match read_words(alloc, words.as_slice()) {
        Ok(Task::Run { settings }) => run_script(context, settings, script, out, given, dice),
        Ok(Task::Soak { seed, count }) => {
            let Given { net, picker, hooks } = given;
            let soaked = soak(context.rt, alloc, seed, count, out, picker, hooks);
            of_soak(net, soaked)
        }
        Err(WordStop::Fault(fault)) => before_all(alloc, given, Status::Usage(fault)),
        Err(WordStop::Memory) => before_all(alloc, given, Status::Memory),
    }
}

/// What a run leaves that was a soak.
fn of_soak<N, P, L>(net: N, soaked: Soaked<P, L>) -> Ran<N, P, L>
    ensures status { result.status ≡ soaked.status }
    ensures net { result.given.net ≡ net }
    ensures hooks { result.given.hooks ≡ soaked.hooks }
    ensures trail { result.trail ≡ soaked.trail }
    ensures members { result.soaked ≡ soaked.hall }
{
    Ran {
        status: soaked.status,
        given: Given {
            net,
            picker: soaked.picker,
            hooks: soaked.hooks,
        },
        trail: soaked.trail,
        soaked: soaked.hall,
    }
}

/// Reads the script, and runs its commands.
fn run_script<
    R: Threads + Wait + Sync,
    S: Source,
    K: Sink,
    N: Net + Send,
    P: Picker,
    L: Listener,
    D: Dice + Send,
    C: LaneClock + Send + Sync,
    G: LaneGate + Sync,
>(
    context: Context<'_, R, C, G>,
    settings: Settings,
    script: &mut S,
    out: &mut K,
    given: Given<N, P, L>,
    dice: D,
) -> Ran<N, P, L>
    requires fresh { N.tells → N.history given.net ≡ [] }
    requires unheard { HeardNothing L.heard given.hooks.listeners.items }
    ensures words { IsUsage result.status → ⊥ }
    ensures members { result.soaked ≡ None }
    ensures script { ReadsScript S.tells S.left S.faults script.old script.new result.status }
    ensures idle { IsIdle result.status → IsNothing given result.given result.trail K.tells K.written out.old out.new }
    ensures runs { IsReached result.status
        → Runs S.tells (S.left script.old) settings C.shows D.rolls N.faults L.heard (λ client told. N.tells → IsOfNet (N.history result.given.net) client told)
        given result.given K.tells K.written out.old out.new result.status result.trail }
    ensures cause { HasCause (K.faults out.old) (K.faults out.new) (result.status ≡ Status.WriteFault) }
{
    let alloc = context.alloc;
    match read_script(alloc, script) {
        Ok(commands) => run_commands(context, settings, commands, out, given, dice),
        Err(ScriptRead::Fault(fault)) => before_all(alloc, given, Status::Script(fault)),
        Err(ScriptRead::ReadFault) => before_all(alloc, given, Status::ReadFault),
        Err(ScriptRead::Memory) => before_all(alloc, given, Status::Memory),
    }
}

/// Runs the commands, and reports what came of them.
fn run_commands<
    R: Threads + Wait + Sync,
    K: Sink,
    N: Net + Send,
    P: Picker,
    L: Listener,
    D: Dice + Send,
    C: LaneClock + Send + Sync,
    G: LaneGate + Sync,
>(
    context: Context<'_, R, C, G>,
    settings: Settings,
    commands: Rows<Command>,
    out: &mut K,
    given: Given<N, P, L>,
    dice: D,
) -> Ran<N, P, L>
    requires fresh { N.tells → N.history given.net ≡ [] }
    requires unheard { HeardNothing L.heard given.hooks.listeners.items }
    requires bounded { IsBounded commands }
    ensures reached { IsReached result.status }
    ensures members { result.soaked ≡ None }
    ensures runs { RunsGiven settings commands C.shows D.rolls N.faults L.heard (λ client told. N.tells → IsOfNet (N.history result.given.net) client told)
        given result.given K.tells K.written out.old out.new result.status result.trail }
    ensures cause { HasCause (K.faults out.old) (K.faults out.new) (result.status ≡ Status.WriteFault) }
{
    let alloc = context.alloc;
    let Ok(mut tallies) = fresh_tallies(alloc, commands.len()) else {
        return before_all(alloc, given, Status::Memory);
    };
    a_new_desk_begins::<N, P, L, C>();
    let moment = context.clock.now();
    match open(alloc, settings, commands, given, moment) {
        Ok(desk) => run_desk::<R, K, N, P, L, D, C, G, Brand>(
            context,
            desk,
            dice,
            &mut tallies,
            out,
        ),
        Err(given) => before_all(alloc, given, Status::Memory),
    }
}

/// The desk of a client that is to run the commands. Where memory is wanting what was given comes back as it was.
pub fn open<N: Net, P: Picker, L: Listener>(
    alloc: Global,
    settings: Settings,
    commands: Rows<Command>,
    given: Given<N, P, L>,
    moment: u64,
) -> Result<HookedDesk<N, P, L>, Given<N, P, L>>
    requires fresh { N.tells → N.history given.net ≡ [] }
    requires bounded { IsBounded commands }
    requires unheard { HeardNothing L.heard given.hooks.listeners.items }
    ensures settings { IfOk result (λ h. h.desk.trail.client.settings ≡ settings) }
    ensures commands { IfOk result (λ h. h.desk.trail.client.commands ≡ commands) }
    ensures client { IfOk result (λ h. h.desk.trail.client.began ≡ min moment (2 ^ 62)) }
    ensures now { IfOk result (λ h. h.desk.last ≡ min moment (2 ^ 62)) }
    ensures quiet { IfOk result (λ h. AreQuiet (min moment (2 ^ 62)) h.desk.trail.steps) }
    ensures names { IfOk result (λ h. TellsNone (told_in h.desk.trail)) }
    ensures heard { IfOk result (λ h. AreTold L.heard L.leaves (told (told_in h.desk.trail)) given.hooks h.hooks) }
    ensures net { IfOk result (λ h. h.desk.net ≡ given.net) }
    ensures listeners { IfOk result (λ h. listeners_in h.hooks ≡ listeners_in given.hooks) }
    ensures returned { IfErr result (λ back. back ≡ given) }
{
    all_are_counted::<L>();
    let Given { net, picker, hooks } = given;
    match HookedDesk::new(alloc, net, settings, commands, picker, hooks, moment) {
        Ok(desk) => Ok(desk),
        Err(refused) => Err(Given {
            net: refused.net,
            picker: refused.picker,
            hooks: refused.hooks,
        }),
    }
}

/// Runs the commands of a desk, ends it, and reports what came of them. Nothing of its trail was counted yet.
fn run_desk<
    R: Threads + Wait + Sync,
    K: Sink,
    N: Net + Send,
    P: Picker,
    L: Listener,
    D: Dice + Send,
    C: LaneClock + Send + Sync,
    G: LaneGate + Sync,
    J: Opening + Send + Sync,
>(
    context: Context<'_, R, C, G>,
    desk: HookedDesk<N, P, L>,
    dice: D,
    tallies: &mut [Tally],
    out: &mut K,
) -> Ran<N, P, L>
    requires begins { Begins C.shows L.heard desk }
    requires opened { opened_by N.faults desk ≡ J.opened }
    requires fresh { AreTallies [] tallies.old }
    requires count { length tallies.old ≡ length J.opened.client.commands }
    requires few { length tallies.old ≤ 100000 }
    ensures reached { IsReached result.status }
    ensures members { result.soaked ≡ None }
    ensures did { Did C.shows D.rolls N.faults L.heard (λ client told. N.tells → IsOfNet (N.history result.given.net) client told)
        J.opened result.given.net result.given.hooks result.status result.trail }
    ensures reports { Reports K.tells K.written out.old out.new J.opened.client result.status result.trail }
    ensures cause { HasCause (K.faults out.old) (K.faults out.new) (result.status ≡ Status.WriteFault) }
{
    let lanes = lanes_of(desk.commands());
    let driven: DrivenDesk<N, P, L, D, C, J> = DrivenDesk::new(desk, dice);
    let played = play(&context, in_lanes(&context, driven, lanes), tallies);
    let status = report_on(context.alloc, &played, out, tallies);
    let Played { driven: _, ended } = played;
    let Left { finished, hooks } = ended;
    let Finished {
        net,
        picker,
        trail,
        ..
    } = finished;
    Ran {
        status,
        given: Given { net, picker, hooks },
        trail,
        soaked: None,
    }
}

/// The greatest lane that is named, where there are two or more; else 1.
fn lanes_of(commands: &[Command]) -> u32 {
    let mut greatest = 1;
    let mut least = u32::MAX;
    for command in commands {
        greatest = command.lane.max(greatest);
        least = command.lane.min(least);
    }
    if least < greatest { greatest } else { 1 }
}

/// Runs the commands by a thread a lane, where there are two or more.
fn in_lanes<
    R: Threads + Wait + Sync,
    N: Net + Send,
    P: Picker,
    L: Listener,
    D: Dice + Send,
    C: LaneClock + Send + Sync,
    G: LaneGate + Sync,
    J: Opening + Send + Sync,
>(
    context: &Context<'_, R, C, G>,
    desk: DrivenDesk<N, P, L, D, C, J>,
    lanes: u32,
) -> DrivenDesk<N, P, L, D, C, J>
    ensures client { result.desk.trail.client ≡ J.opened.client }
{
    let desk = if lanes > 1 {
        run_lanes(
            context.rt,
            context.alloc,
            desk,
            lanes,
            context.clock,
            context.gate,
        )
    } else {
        desk
    };
    desk.steps();
    desk
}

/// What a run leaves that ended before its first command.
fn before_all<N, P, L>(alloc: Global, given: Given<N, P, L>, status: Status) -> Ran<N, P, L>
    ensures status { result.status ≡ status }
    ensures given { result.given ≡ given }
    ensures trail { result.trail ≡ no_trail }
    ensures members { result.soaked ≡ None }
{
    Ran {
        status,
        given,
        trail: empty_trail(alloc),
        soaked: None,
    }
}

/// Nothing was done.
pub fn empty_trail(alloc: Global) -> Trail
    ensures { result ≡ no_trail }
{
    Trail {
        names: Rows::new(alloc),
        events: Rows::new(alloc),
        sessions: Rows::new(alloc),
        requests: Rows::new(alloc),
        steps: Rows::new(alloc),
    }
}

/// Writes the report of the commands, where all were run.
fn report_on<K: Sink, N, P, L>(
    alloc: Global,
    played: &Played<N, P, L>,
    out: &mut K,
    tallies: &[Tally],
) -> Status
    requires few { length tallies.now ≤ 100000 }
    ensures reached { IsReached result }
    ensures done { IsDone result → IsOk played.now.driven }
    ensures verdict { Shows result (list_all is_ok_tally tallies.now) }
    ensures written { K.tells → Writes result (report_by played.now.ended.finished.settings.warnings played.now.ended.finished.trail.names tallies.now) (K.written out.old) (K.written out.new) }
    ensures cause { HasCause (K.faults out.old) (K.faults out.new) (result ≡ Status.WriteFault) }
{
    match played.driven {
        Ok(()) => write_report(alloc, out, &played.ended.finished, tallies),
        Err(_) => Status::Memory,
    }
}

/// Writes the report of the commands.
fn write_report<K: Sink, N, P>(
    alloc: Global,
    out: &mut K,
    finished: &Finished<N, P>,
    tallies: &[Tally],
) -> Status
    requires few { length tallies.now ≤ 100000 }
    ensures reached { IsReached result }
    ensures verdict { Shows result (list_all is_ok_tally tallies.now) }
    ensures written { K.tells → Writes result (report_by finished.now.settings.warnings finished.now.trail.names tallies.now) (K.written out.old) (K.written out.new) }
    ensures cause { HasCause (K.faults out.old) (K.faults out.new) (result ≡ Status.WriteFault) }
{
    let ignored = finished.settings.warnings.as_slice();
    let Ok(text) = report_of(alloc, ignored, &finished.trail.names, tallies) else {
        return Status::Memory;
    };
    write_text(out, text.as_str(), tallies)
}

/// Writes a text, and tells whether all of the lines are ok.
pub fn write_text<K: Sink>(out: &mut K, text: &str, tallies: &[Tally]) -> Status
    ensures reached { IsReached result }
    ensures verdict { Shows result (list_all is_ok_tally tallies.now) }
    ensures written { K.tells → Writes result text.now (K.written out.old) (K.written out.new) }
    ensures cause { HasCause (K.faults out.old) (K.faults out.new) (result ≡ Status.WriteFault) }
{
    match write_all(out, text.as_bytes()) {
        Err(_) => Status::WriteFault,
        Ok(()) if all_ok(tallies) => Status::AllOk,
        Ok(()) => Status::SomeFailed,
    }
}

/// Whether all of the lines are ok.
fn all_ok(tallies: &[Tally]) -> bool
    ensures { result ≡ list_all is_ok_tally tallies.now }
{
    tallies.iter().all(|tally| is_ok(tally))
}
