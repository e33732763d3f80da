//! Each public call on its happy path.
use std::test::Fail;
use wait_line::WaitLine;

/// Each call on its happy path: three enter, one in the middle leaves, one that never entered leaves, the front leaves.
#[test]
fn serves_in_order(rt: HostRuntime) -> Result<(), Fail> {
    let mut line = WaitLine::new(rt.alloc());
    assert!(rt; !line.is_front(0));
    for number in 0..3 {
        assert_eq!(rt; line.given(), number);
        assert!(rt; number < 3);
        assert_eq!(rt; line.enter()?, number);
    }
    assert_eq!(rt; line.len(), 3);
    assert!(rt; line.is_waiting(1) && !line.is_waiting(7));
    line.leave(1);
    line.leave(7);
    assert!(rt; !line.is_waiting(1));
    assert_eq!(rt;
        (line.place(0), line.place(1), line.place(2)),
        (Some(0), None, Some(1))
    );
    assert!(rt; line.is_front(0) && !line.is_front(2));
    line.leave(0);
    assert!(rt; line.is_front(2));
    line.leave(2);
    assert!(rt; line.len() == 0 && !line.is_front(2));
    assert_eq!(rt; line.given(), 3);
    Ok(())
}
