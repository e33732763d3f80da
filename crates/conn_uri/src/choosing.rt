//! What the pieces of the options choose, one after another.
ghost use Rattle.std.specs.Prelude.{◌≡◌, ◌≤◌, ◌++◌, ◌∷◌, [], IfOk, OnOk, filter, fold, Some, is_some, length, not, unwrap_or, if◌then◌else◌};
ghost use Rattle.std.specs.Option.{ForSome, option_map_or, option_or};
ghost use Rattle.bson_doc.specs.Documents.{is_text};
ghost use Rattle.conn_uri.specs.Choices.{chosen_of, took};
ghost use Rattle.conn_uri.specs.Configurations.{defaults as default_choices, MOST};
ghost use Rattle.conn_uri.specs.Options.{asking, taken};
ghost use Rattle.conn_uri.specs.Values.{some_text, truth as truth_of};

use crate::chosen::Chosen;
use crate::said::Said;
use crate::uri_option::UriOption;
use crate::values::{limit, tags, truth, whole};
use crate::{Memory, defaults};
use bson_doc::{Rows, Text};
use read_pref::Mode;
use std::alloc::Global;

/// What the pieces choose; each option that none names is at its default.
pub(crate) fn choose(alloc: Global, pieces: &[Option<Said>]) -> Result<Chosen, Memory>
    ensures { IfOk result (λ c. c ≡ chosen_of pieces.now) }
{
    let mut chosen = defaults_chosen(alloc);
    for piece in pieces {
        take(alloc, &mut chosen, piece)?;
    }
    Ok(chosen)
}

/// Each option at its default.
fn defaults_chosen(alloc: Global) -> Chosen
    ensures { result ≡ default_choices }
{
    Chosen {
        set_name: None,
        direct: defaults::DIRECT_CONNECTION,
        retry_writes: defaults::RETRY_WRITES,
        connect_ms: defaults::CONNECT_TIMEOUT_MS,
        socket_ms: defaults::SOCKET_TIMEOUT_MS,
        select_ms: defaults::SERVER_SELECTION_TIMEOUT_MS,
        beat_ms: defaults::HEARTBEAT_FREQUENCY_MS,
        threshold_ms: defaults::LOCAL_THRESHOLD_MS,
        wait_ms: defaults::WAIT_QUEUE_TIMEOUT_MS,
        idle_ms: defaults::MAX_IDLE_TIME_MS,
        max_pool: defaults::MAX_POOL_SIZE,
        max_connecting: defaults::MAX_CONNECTING,
        mode: Mode::Primary,
        tag_sets: Rows::new(alloc),
        warnings: Rows::new(alloc),
        left: Rows::new(alloc),
    }
}

/// Takes one piece; an empty one says nothing.
fn take(alloc: Global, chosen: &mut Chosen, piece: &Option<Said>) -> Result<(), Memory>
    ensures { OnOk result (chosen.new ≡ took chosen.old piece.now) }
{
    match piece {
        Some(said) => take_said(alloc, chosen, said),
        None => Ok(()),
    }
}

/// Takes what was said, or tells its name where no option has that or the value does not read.
fn take_said(alloc: Global, chosen: &mut Chosen, said: &Said) -> Result<(), Memory>
    ensures { OnOk result (chosen.new ≡ took chosen.old (Some said.now)) }
{
    let is_read = match UriOption::from_name(said.name.as_str()) {
        Some(option) => set(alloc, chosen, option, said.value.as_str())?,
        None => false,
    };
    if is_read {
        return Ok(());
    }
    chosen.warnings.push(said.name.copy(alloc)?)
}

/// Sets what the option's value says, and tells whether the value reads.
#[tactic(auto, unfolding(crate::specs::Options::taken))]
fn set(alloc: Global, chosen: &mut Chosen, option: UriOption, value: &str) -> Result<bool, Memory>
    ensures { IfOk result (λ is_read. (is_read ≡ is_some (taken option value.now chosen.old))
        × (chosen.new ≡ unwrap_or (taken option value.now chosen.old) chosen.old)) }
{
    match option {
        UriOption::ReplicaSet => set_text(alloc, &mut chosen.set_name, value),
        UriOption::DirectConnection => Ok(set_to(&mut chosen.direct, truth(value))),
        UriOption::RetryWrites => Ok(set_to(&mut chosen.retry_writes, truth(value))),
        UriOption::ConnectTimeoutMs => Ok(set_to(&mut chosen.connect_ms, limit(value))),
        UriOption::SocketTimeoutMs => Ok(set_to(&mut chosen.socket_ms, limit(value))),
        UriOption::ServerSelectionTimeoutMs => Ok(set_to(&mut chosen.select_ms, whole(value, 1))),
        UriOption::WaitQueueTimeoutMs => Ok(set_to(&mut chosen.wait_ms, whole(value, 1))),
        UriOption::HeartbeatFrequencyMs => Ok(set_to(&mut chosen.beat_ms, whole(value, 500))),
        UriOption::LocalThresholdMs => Ok(set_to(&mut chosen.threshold_ms, whole(value, 0))),
        UriOption::MaxIdleTimeMs => Ok(set_to(&mut chosen.idle_ms, whole(value, 0))),
        UriOption::MaxPoolSize => Ok(set_count(&mut chosen.max_pool, limit(value))),
        UriOption::MaxConnecting => Ok(set_count(&mut chosen.max_connecting, whole(value, 1))),
        UriOption::ReadPreference => Ok(set_to(&mut chosen.mode, Mode::from_name(value))),
        UriOption::ReadPreferenceTags => match tags(alloc, value)? {
            Some(tags) => {
                chosen.tag_sets.push(tags)?;
                Ok(true)
            }
            None => Ok(false),
        },
        UriOption::Tls => ask(alloc, &mut chosen.left, "tls", truth(value)),
        UriOption::Ssl => ask(alloc, &mut chosen.left, "ssl", truth(value)),
        UriOption::LoadBalanced => ask(alloc, &mut chosen.left, "loadbalanced", truth(value)),
        UriOption::Compressors => ask(alloc, &mut chosen.left, "compressors", Some(true)),
        UriOption::AuthMechanism => ask(alloc, &mut chosen.left, "authmechanism", Some(true)),
        UriOption::W => ask(alloc, &mut chosen.left, "w", Some(value != "majority")),
        UriOption::Journal => ask(alloc, &mut chosen.left, "journal", truth(value)),
    }
}

/// Sets the name of the set, unless the value is empty.
fn set_text(alloc: Global, name: &mut Option<Text>, value: &str) -> Result<bool, Memory>
    ensures { IfOk result (λ is_read. (is_read ≡ is_some (some_text value.now)) × (name.new ≡ option_or (some_text value.now) name.old)) }
{
    if value.is_empty() {
        return Ok(false);
    }
    *name = Some(Text::take(alloc, value)?);
    Ok(true)
}

/// Sets what was read, and tells whether something was.
fn set_to<T: Copy>(field: &mut T, value: Option<T>) -> bool
    ensures read { result ≡ is_some value }
    ensures set { field.new ≡ unwrap_or value field.old }
{
    match value {
        Some(value) => {
            *field = value;
            true
        }
        None => false,
    }
}

/// Sets the count that was read, and tells whether one was.
fn set_count(field: &mut u32, value: Option<u64>) -> bool
    requires { ForSome value (λ n. n ≤ MOST) }
    ensures read { result ≡ is_some value }
    ensures set { field.new ≡ unwrap_or value field.old }
{
    match value {
        Some(value) => {
            *field = value as u32;
            true
        }
        None => false,
    }
}

/// An option asks for what is left out, or does not, where its value reads.
fn ask(alloc: Global, left: &mut Rows<Text>, name: &str, asks: Option<bool>) -> Result<bool, Memory>
    ensures read { IfOk result (λ is_read. is_read ≡ is_some asks) }
    ensures left { OnOk result (left.new ≡ option_map_or (λ b. asking name.now b left.old) asks left.old) }
{
    match asks {
        Some(asks) => {
            let others = others(alloc, left.as_slice(), name)?;
            *left = with_name(alloc, others, name, asks)?;
            Ok(true)
        }
        None => Ok(false),
    }
}

/// The names, and this one behind them where it asks.
fn with_name(alloc: Global, names: Rows<Text>, name: &str, asks: bool) -> Result<Rows<Text>, Memory>
    ensures { IfOk result (λ all. all ≡ names ++ (if asks then name.now ∷ [] else [])) }
{
    if !asks {
        return Ok(names);
    }
    let mut all = names;
    all.push(Text::take(alloc, name)?)?;
    Ok(all)
}

/// The names that are not this one.
fn others(alloc: Global, names: &[Text], name: &str) -> Result<Rows<Text>, Memory>
    ensures { IfOk result (λ others. others ≡ filter (λ n. not (is_text n name.now)) names.now) }
{
    let mut others = Rows::new(alloc);
    for other in names {
        if other.as_str() != name {
            others.push(other.copy(alloc)?)?;
        }
    }
    Ok(others)
}
