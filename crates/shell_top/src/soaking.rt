//! A soak: commands that a seed gives, over members that are played in memory.
ghost use Rattle.std.specs.Prelude.{◌≡◌, ◌≤◌, ◌^◌, ℕ, [], IfErr, IfOk, IsOk, None, Ok, length, min, string_bytes};
ghost use Rattle.std.specs.List.{list_all};
ghost use Rattle.conn_uri.specs.Configurations.{AreSeeds};
ghost use Rattle.desk_trail.specs.Clients.{Client};
ghost use Rattle.host_name.specs.Reading.{reading};
ghost use Rattle.member_core.specs.Honest.{IsHonest};
ghost use Rattle.member_core.specs.Sizes.{IsWithin};
ghost use Rattle.net_link.specs.Causes.{HasCause, count_of};
ghost use Rattle.desk_share.specs.Shared.{Begins, HeardNothing, listeners_in, opened_by};
ghost use Rattle.member_hall.specs.Halls.{HallState};
ghost use Rattle.soak_plan.specs.Commands.{commands_of};
ghost use Rattle.desk_core.specs.Appends.{AreQuiet, TellsNone};
ghost use Rattle.desk_hooks.specs.Hearing.{AreTold};
ghost use Rattle.legal_trail.specs.Recorded.{told_in};
ghost use Rattle.trail_events.specs.Told.{told};
ghost use Rattle.script_text.specs.Bounds.{IsBounded};
ghost use Rattle.shell_top.specs.Report.{is_ok_tally};
ghost use Rattle.shell_top.specs.Run.{IsDone, IsReached, Shows, Writes, no_trail};
ghost use Rattle.shell_top.specs.Soak.{IsPlayed, Soaks, SoaksDesk, soak_hall, soak_hosts, soak_set, soak_settings};
ghost use Rattle.shell_top.specs.Summary.{summary_of, summary_text};
ghost use Rattle.trail_tally.specs.Tallies.{AreTallies};

use crate::context::Context;
use crate::playing::{Played, play};
use crate::running::{empty_trail, open, write_text};
use crate::status::{Given, Status};
use crate::summary::summary_text;
use crate::summing::summary_of;
use bson_doc::{Memory, Rows, Text};
use cmd_build::Command;
use conn_uri::Settings;
use desk_core::Finished;
use desk_hooks::{Ended, HookedDesk};
use desk_share::laws::a_new_desk_begins;
use desk_share::{DrivenDesk, Opening};
use desk_trail::Trail;
use drv_events::{HooksOf, Listener};
use host_name::Host;
use member_hall::Hall;
use net_link::{Clock, Dice, Gate, OpenGate, Sink, TickClock};
use server_pick::Picker;
use soak_plan::{SeedDice, commands, plan};
use std::alloc::{AllocError, Global};
use std::marker::Brand;
use std::sync::Wait;
use trail_tally::{Tally, fresh_tallies};

/// The name of the members' set, and the database.
const SET_NAME: &str = "rs0";

const DATABASE: &str = "test";

/// What a soak leaves: how it ended, what its client did, and the members, where there were any; and the picker and the listeners that
/// it was given.
#[derive(Drop)]
pub struct Soaked<P, L> {
    /// How it ended.
    pub status: Status,
    /// What the client did.
    pub trail: Trail,
    /// The members.
    pub hall: Option<Hall>,
    /// The picker.
    pub picker: P,
    /// The listeners that are still there, and how many left.
    pub hooks: HooksOf<L>,
}

/// What a soak runs: members, settings and commands.
#[derive(Drop)]
struct Setting {
    hall: Hall,
    settings: Settings,
    commands: Rows<Command>,
}

/// A client over members that are played in memory, and its tallies.
#[derive(Drop)]
struct Begun<P: Picker, L: Listener> {
    desk: HookedDesk<Hall, P, L>,
    tallies: Vec<Tally>,
}

/// Runs so many commands of a seed, and sums up what happened. Its clock goes on by a microsecond at each look, and its dice are those of
/// the seed; its gate is open.
pub fn soak<R: Wait, K: Sink, P: Picker, L: Listener>(
    rt: &R,
    alloc: Global,
    seed: u64,
    count: u32,
    out: &mut K,
    picker: P,
    hooks: HooksOf<L>,
) -> Soaked<P, L>
    requires few { count ≤ 100000 }
    requires unheard { HeardNothing L.heard hooks.listeners.items }
    ensures reached { IsReached result.status }
    ensures soaks { Soaks seed count L.heard hooks result.hooks K.tells K.written out.old out.new result.status result.trail result.hall }
    ensures cause { HasCause (K.faults out.old) (K.faults out.new) (result.status ≡ Status.WriteFault) }
{
    a_new_desk_begins::<Hall, P, L, TickClock>();
    let clock = TickClock::new(0, 1);
    let context = Context {
        rt,
        alloc,
        clock: &clock,
        gate: &OpenGate,
    };
    match begin(alloc, seed, count, picker, hooks, clock.now()) {
        Ok(mut begun) => soak_desk::<R, K, P, L, SeedDice, TickClock, OpenGate, Brand>(
            &context,
            begun.desk,
            SeedDice::new(seed),
            &mut begun.tallies,
            out,
        ),
        Err((picker, hooks)) => no_members(alloc, picker, hooks),
    }
}

/// The client of a seed, over its members. Nothing of its trail was counted yet.
fn begin<P: Picker, L: Listener>(
    alloc: Global,
    seed: u64,
    count: u32,
    picker: P,
    hooks: HooksOf<L>,
    moment: u64,
) -> Result<Begun<P, L>, (P, HooksOf<L>)>
    requires few { count ≤ 100000 }
    requires unheard { HeardNothing L.heard hooks.listeners.items }
    ensures members { IfOk result (λ b. b.desk.desk.net ≡ soak_hall seed count) }
    ensures settings { IfOk result (λ b. b.desk.desk.trail.client.settings ≡ soak_settings) }
    ensures commands { IfOk result (λ b. b.desk.desk.trail.client.commands ≡ commands_of count) }
    ensures began { IfOk result (λ b. b.desk.desk.trail.client.began ≡ min moment (2 ^ 62)) }
    ensures now { IfOk result (λ b. b.desk.desk.last ≡ min moment (2 ^ 62)) }
    ensures quiet { IfOk result (λ b. AreQuiet (min moment (2 ^ 62)) b.desk.desk.trail.steps) }
    ensures names { IfOk result (λ b. TellsNone (told_in b.desk.desk.trail)) }
    ensures heard { IfOk result (λ b. AreTold L.heard L.leaves (told (told_in b.desk.desk.trail)) hooks b.desk.hooks) }
    ensures listeners { IfOk result (λ b. listeners_in b.desk.hooks ≡ listeners_in hooks) }
    ensures fresh { IfOk result (λ b. AreTallies [] b.tallies.items) }
    ensures count { IfOk result (λ b. length b.tallies.items ≡ length b.desk.desk.trail.client.commands) }
    ensures few { IfOk result (λ b. length b.tallies.items ≤ 100000) }
    ensures returned { IfErr result (λ back. back.1 ≡ hooks) }
{
    let Ok(setting) = setting_of(alloc, seed, count) else {
        return Err((picker, hooks));
    };
    let Ok(tallies) = fresh_tallies(alloc, setting.commands.len()) else {
        return Err((picker, hooks));
    };
    let given = Given {
        net: setting.hall,
        picker,
        hooks,
    };
    match open(alloc, setting.settings, setting.commands, given, moment) {
        Ok(desk) => Ok(Begun { desk, tallies }),
        Err(given) => Err((given.picker, given.hooks)),
    }
}

/// Runs the commands of a desk over the members, and sums up what happened.
fn soak_desk<R: Wait, K: Sink, P: Picker, L: Listener, D: Dice, C: Clock, G: Gate, J: Opening>(
    context: &Context<'_, R, C, G>,
    desk: HookedDesk<Hall, P, L>,
    dice: D,
    tallies: &mut [Tally],
    out: &mut K,
) -> Soaked<P, L>
    requires begins { Begins C.shows L.heard desk }
    requires opened { opened_by (λ (h : HallState). count_of h.faults) desk ≡ J.opened }
    requires fresh { AreTallies [] tallies.old }
    requires count { length tallies.old ≡ length J.opened.client.commands }
    requires few { length tallies.old ≤ 100000 }
    ensures reached { IsReached result.status }
    ensures soaks { SoaksDesk C.shows D.rolls L.heard J.opened result.hooks K.tells K.written out.old out.new result.status result.trail result.hall }
    ensures cause { HasCause (K.faults out.old) (K.faults out.new) (result.status ≡ Status.WriteFault) }
{
    let driven: DrivenDesk<Hall, P, L, D, C, J> = DrivenDesk::new(desk, dice);
    driven.steps();
    let played = play(context, driven, tallies);
    history_is_honest(&played.ended.finished.net);
    let status = sum_up(context.alloc, &played, out, tallies);
    let Played { driven: _, ended } = played;
    let Ended { finished, hooks } = ended;
    let Finished {
        net,
        picker,
        trail,
        ..
    } = finished;
    Soaked {
        status,
        trail,
        hall: Some(net),
        picker,
        hooks,
    }
}

/// The history of members is honest.
fn history_is_honest(hall: &Hall)
    ensures { IsHonest hall.now.events }
{
    let _events = hall.events();
}

/// Writes what is summed up, where all commands were run.
fn sum_up<K: Sink, P, L>(
    alloc: Global,
    played: &Played<Hall, P, L>,
    out: &mut K,
    tallies: &[Tally],
) -> Status
    requires few { length tallies.now ≤ 100000 }
    requires count { length tallies.now ≡ length played.now.ended.finished.commands }
    ensures reached { IsReached result }
    ensures done { IsDone result → IsOk played.now.driven }
    ensures verdict { Shows result (list_all is_ok_tally tallies.now) }
    ensures written { K.tells → (client : Client) → IsPlayed client played.now.ended.finished tallies.now
        → Writes result (summary_text (summary_of client played.now.ended.finished.trail played.now.ended.finished.net)) (K.written out.old) (K.written out.new) }
    ensures cause { HasCause (K.faults out.old) (K.faults out.new) (result ≡ Status.WriteFault) }
{
    match played.driven {
        Ok(()) => write_summary(alloc, &played.ended.finished, out, tallies),
        Err(_) => Status::Memory,
    }
}

/// Writes what is summed up.
fn write_summary<K: Sink, P>(
    alloc: Global,
    finished: &Finished<Hall, P>,
    out: &mut K,
    tallies: &[Tally],
) -> Status
    requires few { length tallies.now ≤ 100000 }
    requires count { length tallies.now ≡ length finished.now.commands }
    ensures reached { IsReached result }
    ensures verdict { Shows result (list_all is_ok_tally tallies.now) }
    ensures written { K.tells → (client : Client) → IsPlayed client finished.now tallies.now
        → Writes result (summary_text (summary_of client finished.now.trail finished.now.net)) (K.written out.old) (K.written out.new) }
    ensures cause { HasCause (K.faults out.old) (K.faults out.new) (result ≡ Status.WriteFault) }
{
    let Ok(text) = text_of(alloc, finished, tallies) else {
        return Status::Memory;
    };
    write_text(out, text.as_str(), tallies)
}

/// The seven lines.
fn text_of<P>(
    alloc: Global,
    finished: &Finished<Hall, P>,
    tallies: &[Tally],
) -> Result<String, Memory>
    requires few { length tallies.now ≤ 100000 }
    requires count { length tallies.now ≡ length finished.now.commands }
    ensures { IfOk result (λ text. (client : Client) → IsPlayed client finished.now tallies.now
        → string_bytes text ≡ summary_text (summary_of client finished.now.trail finished.now.net)) }
{
    let summary = summary_of(alloc, finished, tallies)?;
    let text = summary_text(alloc, &summary)?;
    Ok(text)
}

/// The members, settings and commands of a seed.
fn setting_of(alloc: Global, seed: u64, count: u32) -> Result<Setting, Memory>
    requires few { count ≤ 100000 }
    ensures hall { IfOk result (λ s. s.hall ≡ soak_hall seed count) }
    ensures settings { IfOk result (λ s. s.settings ≡ soak_settings) }
    ensures commands { IfOk result (λ s. s.commands ≡ commands_of count) }
    ensures bounded { IfOk result (λ s. IsBounded s.commands) }
{
    Ok(Setting {
        hall: hall(alloc, seed, count)?,
        settings: settings(alloc)?,
        commands: commands(alloc, count)?,
    })
}

/// The members, to which is to happen what the seed gives.
fn hall(alloc: Global, seed: u64, count: u32) -> Result<Hall, Memory>
    requires few { count ≤ 100000 }
    ensures { IfOk result (λ hall. hall ≡ soak_hall seed count) }
{
    let hosts = hosts(alloc)?;
    let acts = plan(alloc, seed, count / 10)?;
    match Hall::new(alloc, SET_NAME, hosts.as_slice(), acts) {
        Ok(hall) => Ok(hall),
        Err(_) => Err(AllocError),
    }
}

/// What the client goes by.
fn settings(alloc: Global) -> Result<Settings, Memory>
    ensures { IfOk result (λ settings. settings ≡ soak_settings) }
{
    let hosts = hosts(alloc)?;
    let set_name = Text::take(alloc, SET_NAME)?;
    let db = Text::take(alloc, DATABASE)?;
    Ok(Settings::plain(alloc, hosts, Some(set_name), db))
}

/// The members' hosts.
fn hosts(alloc: Global) -> Result<Rows<Host>, Memory>
    ensures hosts { IfOk result (λ hosts. hosts ≡ soak_hosts) }
    ensures seeds { IfOk result AreSeeds }
    ensures within { IfOk result (λ hosts. IsWithin soak_set hosts) }
{
    let mut hosts = Rows::new(alloc);
    hosts.push(host(alloc, "a")?)?;
    hosts.push(host(alloc, "b")?)?;
    hosts.push(host(alloc, "c")?)?;
    Ok(hosts)
}

/// The host of that name.
fn host(alloc: Global, name: &str) -> Result<Host, Memory>
    ensures { IfOk result (λ host. reading name.now ≡ Ok host) }
{
    match Host::parse(alloc, name) {
        Ok(host) => Ok(host),
        Err(_) => Err(AllocError),
    }
}

/// What a soak leaves for which there was no memory.
fn no_members<P, L>(alloc: Global, picker: P, hooks: HooksOf<L>) -> Soaked<P, L>
    ensures status { result.status ≡ Status.Memory }
    ensures trail { result.trail ≡ no_trail }
    ensures members { result.hall ≡ None }
    ensures hooks { result.hooks ≡ hooks }
{
    Soaked {
        status: Status::Memory,
        trail: empty_trail(alloc),
        hall: None,
        picker,
        hooks,
    }
}
