//! Round trips whose means were worked out by hand.
use rtt_mean::{next, next_extends_mean};

/// Round trips one after another, each with the mean after it, worked out by hand.
#[test]
fn follows_round_trips(rt: HostRuntime) {
    let mut mean = None;
    for (sample, expected) in [
        (100_000, 100_000),
        (200_000, 120_000),
        (7, 96_001),
        (0, 76_800),
        (76_805, 76_801),
    ] {
        mean = Some(next(mean, sample));
        assert_eq!(rt; mean, Some(expected));
    }
    next_extends_mean();
}

/// The ends of the range, and what is rounded down. 18446744073709551615 is 5 * 3689348814741910323.
#[test]
fn meets_extremes(rt: HostRuntime) {
    assert_eq!(rt; next(None, 0), 0);
    assert_eq!(rt; next(None, u64::MAX), u64::MAX);
    assert_eq!(rt; next(Some(u64::MAX), u64::MAX), u64::MAX);
    assert_eq!(rt; next(Some(u64::MAX), 0), 14_757_395_258_967_641_292);
    assert_eq!(rt; next(Some(0), u64::MAX), 3_689_348_814_741_910_323);
    assert_eq!(rt; next(Some(0), 4), 0);
    assert_eq!(rt; next(Some(0), 5), 1);
    assert_eq!(rt; next(Some(1), 0), 0);
    assert_eq!(rt; next(Some(2), 1), 1);
}
