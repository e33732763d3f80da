//! Calls of a watch that may be made at some moments alone.
use case_files::CaseFault;
use watch_step::{CheckEnd, LAST_MOMENT, LONGEST_BEAT, Watch};

/// A server that was never checked.
pub fn new(beat: u64, moment: u64) -> Result<Watch, CaseFault> {
    if beat > LONGEST_BEAT || moment > LAST_MOMENT {
        return Err(CaseFault::Refused("out of range"));
    }
    Ok(Watch::new(beat, moment))
}

/// A check begins.
pub fn begin(watch: &mut Watch, moment: u64) -> Result<(), CaseFault> {
    if watch.running() {
        return Err(CaseFault::Refused("a check runs"));
    }
    if moment > LAST_MOMENT {
        return Err(CaseFault::Refused("out of range"));
    }
    watch.begin(moment);
    Ok(())
}

/// The check that runs ends.
pub fn end(watch: &mut Watch, moment: u64, again: bool) -> Result<(), CaseFault> {
    if !watch.running() {
        return Err(CaseFault::Refused("no check runs"));
    }
    if moment > LAST_MOMENT {
        return Err(CaseFault::Refused("out of range"));
    }
    watch.end(moment, again);
    Ok(())
}

/// Somebody waits for the server.
pub fn ask(watch: &mut Watch, moment: u64) -> Result<(), CaseFault> {
    if moment > LAST_MOMENT {
        return Err(CaseFault::Refused("out of range"));
    }
    watch.ask(moment);
    Ok(())
}

/// The end of that name.
pub fn end_of(name: &str) -> Option<CheckEnd> {
    match name {
        "reply" => Some(CheckEnd::Reply),
        "refused" => Some(CheckEnd::Refused),
        "cut" => Some(CheckEnd::Cut),
        "fault" => Some(CheckEnd::Fault),
        "late" => Some(CheckEnd::Late),
        "bad" => Some(CheckEnd::Bad),
        "no_dial" => Some(CheckEnd::NoDial),
        _ => None,
    }
}
