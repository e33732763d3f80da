//! The options of a pool (CMAP, Connection Pool Options).
use pool_book::PoolRules;
use serde_json::Value;
use std::alloc::Global;
use suite_files::Fault;
use suite_files::members::{number, object};

/// The rules of a pool without options (CMAP, maxPoolSize and maxConnecting): nothing is limited in time.
const DEFAULTS: PoolRules = PoolRules {
    max_size: 100,
    max_connecting: 2,
    idle_micros: 0,
    wait_micros: 0,
};

/// The rules that a file's options give.
pub fn rules_of(alloc: Global, file: &Value) -> Result<PoolRules, Fault> {
    let mut rules = DEFAULTS;
    let Some(options) = file.get("poolOptions") else {
        return Ok(rules);
    };
    for (name, value) in object(alloc, options)?.iter() {
        match name.as_str() {
            "maxPoolSize" => rules.max_size = count_of(alloc, value)?,
            "maxIdleTimeMS" => rules.idle_micros = micros_of(alloc, value)?,
            "waitQueueTimeoutMS" => rules.wait_micros = micros_of(alloc, value)?,
            other => return Err(Fault::told(alloc, format_args!("no call for {other}"))),
        }
    }
    Ok(rules)
}

/// How many connections there may be; 0 stands for no limit.
fn count_of(alloc: Global, value: &Value) -> Result<u32, Fault> {
    match u32::try_from(number(alloc, value)?) {
        Ok(0) => Ok(u32::MAX),
        Ok(count) => Ok(count),
        Err(_) => Err(Fault::told(alloc, "an option is out of range")),
    }
}

/// So many milliseconds, in microseconds.
pub fn micros_of(alloc: Global, value: &Value) -> Result<u64, Fault> {
    match number(alloc, value)?.checked_mul(1_000) {
        Some(micros) => Ok(micros),
        None => Err(Fault::told(alloc, "a time is out of range")),
    }
}
