//! The laws at a judge of one's own, and moments that never fall.
use entry_judge::{HasJudge, Timed, laws, never_falls};
use std::test::Fail;

/// A turnstile: a coin opens it, and whoever passes shuts it again.
struct Turnstile;

impl HasJudge for Turnstile {
    ghost use Rattle.std.specs.Prelude.{◌≡◌, Bool, false, []};
    ghost use Rattle.entry_judge.specs.Groups.{Judge};

    ghost State = { Bool };

    ghost Entry = { Bool };

    ghost judge = { record {
      may_stand = λ opened moment coin. opened ≡ false;
      after = λ opened moment coin. coin;
      owes = λ opened moment coin. [];
    } };
}

/// Each law at a judge of one's own.
#[test]
fn laws_hold_of_a_turnstile(rt: HostRuntime) {
    laws::a_trail_is_legal_place_by_place::<Turnstile>();
    laws::the_front_of_a_trail_is_one::<Turnstile>();
    laws::what_is_owed_comes_next::<Turnstile>();
    laws::calls_make_trails::<Turnstile>();
    laws::each_part_moves_alone::<Turnstile>();
}

fn at(moment: u64) -> Timed<char> {
    Timed {
        at: moment,
        what: 'x',
    }
}

#[test]
fn moments_never_fall(rt: HostRuntime) -> Result<(), Fail> {
    assert!(rt; never_falls::<char>(&[]));
    assert!(rt; never_falls(&[at(0), at(5), at(5), at(u64::MAX)]));
    assert!(rt; !never_falls(&[at(5), at(4), at(6)]));
    Ok(())
}
