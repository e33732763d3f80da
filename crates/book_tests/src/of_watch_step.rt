//! Each public call on its happy path.
use watch_step::laws::{asks_postpone_nothing, due_is_read_off_the_entries};
use watch_step::{CheckEnd, Watch};

/// Each call once, with ten seconds between checks.
#[test]
fn a_check_is_due_at_once_then_each_interval(rt: HostRuntime) {
    let mut watch = Watch::new(10_000_000, 7);
    assert!(rt; watch.due() == 7 && !watch.running());
    watch.begin(9);
    assert!(rt; watch.running() && watch.began() == Some(9));
    assert!(rt; watch.ended().is_none());
    watch.end(1_000, CheckEnd::Reply.is_again(true));
    assert!(rt; watch.due() == 10_001_000 && !watch.running() && watch.ended() == Some(1_000));
    watch.ask(2_000);
    assert_eq!(rt; watch.due(), 501_000);
    due_is_read_off_the_entries();
    asks_postpone_nothing();
}
