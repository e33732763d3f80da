//! The checks of a server (Server Monitoring).
ghost use Rattle.std.specs.Prelude.{◌≡◌, ◌≢◌, ◌≤◌, ◌^◌, false, None, Some, IsSome};
ghost use Rattle.watch_step.specs.Ends.{is_again};
ghost use Rattle.desk_trail.specs.declared.entry.CheckHow.TheVariants as how_of;
ghost use Rattle.desk_trail.specs.Checks.{asked, check_begins, check_ends, end_of, leaves};

use crate::Server;
use desk_trail::CheckHow;
use watch_step::CheckEnd;

impl Server {
    /// A check begins on a stream, with a hello of that id. None runs.
    pub fn begin_check(&mut self, moment: u64, stream: u64, hello: i32)
        requires stays { self.old.has_left ≡ false }
        requires idle { self.old.checks.began ≡ None }
        requires moment { moment ≤ 2 ^ 62 }
        ensures begins { self.new ≡ check_begins moment stream self.old }
    {
        self.watch.begin(moment);
        self.check_stream = Some(stream);
        self.hello = hello;
        self.dry = None;
    }

    /// The check that runs ends, or no stream could be made for one. `known` says whether the topology knew the server.
    pub fn end_check(&mut self, moment: u64, how: &CheckHow, known: bool)
        requires stays { self.old.has_left ≡ false }
        requires running { how.now ≢ how_of.NoDial → IsSome self.old.checks.began }
        requires idle { how.now ≡ how_of.NoDial → self.old.checks.began ≡ None }
        requires moment { moment ≤ 2 ^ 62 }
        ensures ends { self.new ≡ check_ends moment how.now known self.old }
    {
        if let CheckHow::NoDial = how {
            self.watch.begin(moment);
            self.watch.end(moment, CheckEnd::NoDial.is_again(known));
            return;
        }
        self.watch.end(moment, end_of(how).is_again(known));
        if !matches!(how, CheckHow::Reply { .. }) {
            self.check_stream = None;
        }
        self.dry = None;
    }

    /// The check that runs was seen without an answer.
    pub fn find_dry(&mut self, moment: u64)
        ensures dry { self.new ≡ record self.old { dry = Some moment } }
    {
        self.dry = Some(moment);
    }

    /// A check is asked for.
    pub fn ask(&mut self, moment: u64)
        requires moment { moment ≤ 2 ^ 62 }
        ensures asked { self.new ≡ asked moment self.old }
    {
        if !self.has_left {
            self.watch.ask(moment);
        }
    }

    /// It leaves the topology: a check that runs ends with it.
    pub fn leave(&mut self)
        requires { self.old.has_left ≡ false }
        ensures leaves { self.new ≡ leaves self.old }
    {
        self.has_left = true;
        self.check_stream = None;
        self.dry = None;
    }
}

/// The end of a check, as the checks' intervals know it.
fn end_of(how: &CheckHow) -> CheckEnd
    ensures { result ≡ end_of how.now }
{
    match how {
        CheckHow::Reply { .. } => CheckEnd::Reply,
        CheckHow::Refused { .. } => CheckEnd::Refused,
        CheckHow::Cut => CheckEnd::Cut,
        CheckHow::Fault => CheckEnd::Fault,
        CheckHow::Late => CheckEnd::Late,
        CheckHow::Bad { .. } => CheckEnd::Bad,
        CheckHow::NoDial => CheckEnd::NoDial,
    }
}
