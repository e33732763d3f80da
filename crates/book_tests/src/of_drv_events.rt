//! Boxed listeners of two types. What a boxed listener heard nobody else sees: one of them leaves when it has heard just what
//! it is to hear. The crate `book_cases` tells events to listeners whose lists are seen.
use crate::expects::Expects;
use bson_doc::Rows;
use drv_events::laws::{all_are_counted, each_heard_what_was_told_since};
use drv_events::{Event, Hooks, HooksOf, Listener, deliver};
use host_name::Host;
use pool_book::CloseReason;
use std::test::Fail;

/// A listener that keeps nothing: it leaves at the first event.
#[derive(Drop)]
struct Leaves;

impl Listener for Leaves {
    ghost use Rattle.std.specs.Prelude.{[], true};

    ghost heard = { λ _. [] };

    ghost leaves = { λ _. true };

    fn hear(&mut self, _names: &[Host], _event: &Event) {}

    fn leaving(&self) -> bool {
        true
    }
}

/// One of each type stands in one list; each leaves at its event, and is counted.
#[test]
fn boxed_listeners_hear_and_leave(rt: HostRuntime) -> Result<(), Fail> {
    let alloc = rt.alloc();
    let mut names = Rows::new(alloc);
    names.push(Host::parse(alloc, "a")?)?;
    let opened = Event::ServerOpened { host: 0 };
    let closed = Event::ConnClosed {
        host: 0,
        conn: 1,
        reason: CloseReason::Idle,
    };
    let mut hooks: Hooks = HooksOf::new(alloc);
    let expects: Box<dyn Listener> = Box::new(
        alloc,
        Expects {
            heard: Vec::new(alloc),
            events: [opened, closed],
            leaves: false,
        },
    )?;
    let leaves: Box<dyn Listener> = Box::new(alloc, Leaves)?;
    assert!(rt; hooks.add(expects).is_ok());
    assert!(rt; hooks.add(leaves).is_ok());
    assert_eq!(rt; (hooks.len(), hooks.left()), (2, 0));
    deliver(&mut hooks, names.as_slice(), &opened);
    assert_eq!(rt; (hooks.len(), hooks.left()), (1, 1));
    deliver(&mut hooks, names.as_slice(), &closed);
    assert_eq!(rt; (hooks.len(), hooks.left()), (0, 2));
    deliver(&mut hooks, names.as_slice(), &closed);
    assert_eq!(rt; (hooks.len(), hooks.left()), (0, 2));
    each_heard_what_was_told_since::<Expects>();
    all_are_counted::<Expects>();
    Ok(())
}
