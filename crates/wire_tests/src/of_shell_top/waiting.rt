//! A peer that is slow, or never there: the limit of time decides, and nothing else does.

ghost use Rattle.std.specs.Prelude.{◌≡◌, ◌<◌, []};
ghost use Rattle.net_link.specs.Causes.{count_of-below};

use super::{CHECK, CONNECTION, one_host, source};
use bson_doc::Rows;
use desk_share::LaneClock;
use drv_events::Hooks;
use net_link::{Came, Clock, Dialed, ListDice, Net, OpenGate, TickClock, VecSink, Wrote};
use server_pick::KeepAll;
use shell_top::run;
use std::alloc::Global;
use std::sync::Wait;
use std::test::Fail;
use std::thread::Threads;

/// A net that tells nothing, and takes and gives one byte at a call.
#[derive(Drop)]
struct SlowNet {
    /// How many streams were dialled.
    dialled: u64,
    /// How many writes take nothing before the next one takes a byte.
    full: u32,
    /// How many writes in a row took nothing.
    waited: u32,
    /// How many reads have nothing before the first reply is there.
    dry: u32,
    /// How many bytes were taken.
    taken: u64,
    /// How many bytes of the first stream's replies were given, and of the others'.
    given: [usize; 2],
}

impl Net for SlowNet {
    ghost faults = { λ _. 0 };

    ghost is_open = { λ n t. t < n.dialled };

    ghost next = { λ n. n.dialled };

    ghost tells = { ⊥ };

    ghost history = { λ _. [] };

    ghost inbox = { λ _ _. [] };

    ghost has_ended = { λ _ _. ⊥ };

    ghost is_full = { λ _ _. ⊥ };

    ghost counts = { λ _. count_of-below 0 };

    ghost below = { λ _ _ given. given };

    fn dial(&mut self, _address: &str) -> Dialed {
        let stream = self.dialled;
        let Some(next) = stream.checked_add(1) else {
            return Dialed::Memory;
        };
        self.dialled = next;
        Dialed::Stream(stream)
    }

    fn write(&mut self, _stream: u64, _bytes: &[u8]) -> Wrote {
        if self.waited < self.full {
            self.waited += 1;
            return Wrote::NotYet;
        }
        self.waited = 0;
        self.taken = self.taken.saturating_add(1);
        Wrote::Took(1)
    }

    fn read(&mut self, stream: u64, into: &mut [u8]) -> Came {
        if self.dry > 0 {
            self.dry -= 1;
            return Came::NotYet;
        }
        let (place, replies) = if stream == 0 {
            (0, CHECK)
        } else {
            (1, CONNECTION)
        };
        let Some(byte) = replies.get(self.given[place]) else {
            return Came::NotYet;
        };
        into[0] = *byte;
        self.given[place] += 1;
        Came::Got(1)
    }

    fn close(&mut self, _stream: u64) {}
}

/// A clock that never moves.
#[derive(Drop)]
struct StillClock;

impl Clock for StillClock {
    ghost shows = { λ moment. moment ≡ 5 };

    fn now(&self) -> u64 {
        5
    }

    fn rest(&self, _micros: u64) {}
}

impl LaneClock for StillClock {}

/// What a run over a slow net left.
#[derive(Drop)]
struct Left {
    /// The number that the program ends with.
    code: u8,
    /// What was written.
    out: VecSink,
    /// How many bytes went out.
    taken: u64,
}

/// Runs the script of one insert over a slow net.
fn over_slow<R: Threads + Wait + Sync, C: LaneClock + Send + Sync>(
    rt: &R,
    alloc: Global,
    clock: &C,
    full: u32,
    dry: u32,
) -> Result<Left, Fail> {
    let mut out = VecSink::new(alloc, 4096, Rows::new(alloc))?;
    let net = SlowNet {
        dialled: 0,
        full,
        waited: 0,
        dry,
        taken: 0,
        given: [0, 0],
    };
    let words = one_host(alloc)?;
    let mut script = source(alloc)?;
    let dice = ListDice::new(Rows::take(alloc, &[1])?);
    let picker = Box::new(alloc, KeepAll)?;
    let ended = run(
        rt,
        alloc,
        &words,
        &mut script,
        &mut out,
        net,
        clock,
        dice,
        Hooks::new(alloc),
        picker,
        &OpenGate,
    );
    Ok(Left {
        code: ended.status.code(),
        out,
        taken: ended.net.taken,
    })
}

/// Nothing is taken, and the clock goes on: no server is known in time.
#[test]
fn a_net_that_takes_nothing_has_no_server(rt: HostRuntime) -> Result<(), Fail> {
    let ticks = TickClock::new(0, 1_000_000);
    let left = over_slow(&rt, rt.alloc(), &ticks, u32::MAX, 0)?;
    let line = b"1: no-server attempts=0\ndone 1 ok 0\n";
    let is_line = left.out.written() == line.as_slice();
    assert_eq!(rt; (left.code, is_line, left.taken), (1, true, 0));
    Ok(())
}

/// The clock stands still: each second write takes a byte, and the thousandth read has the first reply's first.
#[test]
fn no_net_is_late_where_the_clock_stands(rt: HostRuntime) -> Result<(), Fail> {
    let left = over_slow(&rt, rt.alloc(), &StillClock, 1, 999)?;
    let line = b"1: ok n=1 modified=0 attempts=1\ndone 1 ok 1\n";
    let is_line = left.out.written() == line.as_slice();
    assert_eq!(rt; (left.code, is_line), (0, true));
    Ok(())
}
