use crate::expecting::compare_events;
use crate::operations::operate;
use crate::options::rules_of;
use crate::player::Player;
use serde_json::Value;
use std::alloc::Global;
use suite_files::members::{items, object, text_member};
use suite_files::{Fault, Suite, Tally};

/// The tests of pools.
pub struct Pools;

impl Suite for Pools {
    fn run(
        &self,
        alloc: Global,
        suite: &str,
        file: &Value,
        tally: &mut Tally,
    ) -> Result<(), Fault> {
        if suite != "connection-monitoring-and-pooling" {
            return Err(Fault::told(alloc, "no such suite"));
        }
        for (name, _) in object(alloc, file)?.iter() {
            match name.as_str() {
                "version" | "style" | "description" | "skipReason" => {}
                "poolOptions" | "operations" | "events" | "ignore" | "error" => {}
                other => return Err(Fault::told(alloc, format_args!("no call for {other}"))),
            }
        }
        let mut player = Player::new(alloc, rules_of(alloc, file)?)?;
        let mut number = 0u64;
        for operation in items(alloc, file, "operations")? {
            number = number.saturating_add(1);
            if let Err(fault) = operate(alloc, &mut player, operation) {
                return Err(fault.at(alloc, format_args!("operation {number}")));
            }
        }
        let expected = match file.get("error") {
            Some(error) => text_member(alloc, error, "type")?,
            None => "none",
        };
        tally.compare(alloc, "error", expected, player.error())?;
        compare_events(alloc, file, player.events(), tally)
    }
}
