//! Whole runs of a command.
use crate::attempts::state::Run;
use case_files::CaseFault;
use write_retry::{Next, OpEvent, OpMachine};

/// More than the events of any run.
const MOST_EVENTS: u32 = 20;

/// How a run goes.
#[derive(Clone, Copy)]
pub struct Plan {
    /// Whether numbers are drawn at the first server.
    pub numbered: bool,
    /// How the first attempt ends.
    pub first: OpEvent,
    /// How the second attempt ends, or what the second selection comes to.
    pub second: OpEvent,
}

/// Tells the machine what the plan says until it answers. Attempts go to servers 1 and 2.
pub fn run(machine: &mut OpMachine, plan: Plan) -> Result<Run, CaseFault> {
    let mut selects = 0u32;
    let mut sends = 0u32;
    for _ in 0..MOST_EVENTS {
        match machine.next() {
            Next::Answer(answer) => {
                return Ok(Run {
                    answer,
                    selects,
                    sends,
                });
            }
            Next::Select => selects = selects.saturating_add(1),
            Next::Send => sends = sends.saturating_add(1),
            Next::CheckOut { .. } | Next::Read => {}
        }
        take(machine, plan, selects)?;
    }
    Err(CaseFault::Refused("no answer"))
}

/// Takes the event that the plan has for what is to be done.
fn take(machine: &mut OpMachine, plan: Plan, selects: u32) -> Result<(), CaseFault> {
    let end = if selects < 2 { plan.first } else { plan.second };
    let event = if machine.allows(&end) {
        end
    } else {
        on_the_way(machine.next(), plan.numbered, selects)
    };
    if !machine.allows(&event) {
        return Err(CaseFault::Refused("an attempt does not end so"));
    }
    machine.on(event);
    Ok(())
}

/// What comes where an attempt does not end yet.
fn on_the_way(next: Next, numbered: bool, selects: u32) -> OpEvent {
    match next {
        Next::Select if selects < 2 => OpEvent::Chosen { host: 1, numbered },
        Next::Select => OpEvent::Chosen {
            host: 2,
            numbered: true,
        },
        Next::CheckOut { .. } => OpEvent::Lent,
        Next::Send | Next::Read | Next::Answer(_) => OpEvent::Sent,
    }
}
