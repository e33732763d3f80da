//! Each public call on its happy path, and what a book is at a bound. The crate `book_cases` runs calls and their answers.
use pool_book::{Fate, PoolBook, PoolRules, PoolState, Settled, Take};
use std::alloc::Global;
use std::test::Fail;

/// The book of one connection at most.
fn opened(alloc: Global) -> PoolBook {
    let rules = PoolRules {
        max_size: 1,
        max_connecting: 1,
        idle_micros: 0,
        wait_micros: 0,
    };
    PoolBook::new(alloc, rules)
}

/// One ticket dials, the connection is kept and lent again; the next ticket leaves, and the pool is cleared and closed.
#[test]
fn lends_a_connection(rt: HostRuntime) -> Result<(), Fail> {
    let mut book = opened(rt.alloc());
    book.ready();
    assert_eq!(rt; book.state(), PoolState::Ready);
    assert_eq!(rt; book.entered(), 0);
    let ticket = book.enter(0)?;
    assert!(rt; book.is_waiting(&ticket));
    assert_eq!(rt; book.sweep(0), None);
    assert_eq!(rt; book.try_take(&ticket, 0), Take::Dial { conn: 1 });
    assert!(rt; book.is_pending(1));
    assert_eq!(rt; book.established(1), Settled::Lent);
    assert!(rt; book.is_lent(1));
    assert_eq!(rt; book.check_in(1, 5, false), Fate::Kept);
    assert_eq!(rt; book.available().len(), 1);
    Ok(())
}

#[test]
fn clears_and_closes(rt: HostRuntime) -> Result<(), Fail> {
    let mut book = opened(rt.alloc());
    book.ready();
    assert_eq!(rt; book.entered(), 0);
    let ticket = book.enter(0)?;
    assert!(rt; book.is_waiting(&ticket));
    assert_eq!(rt; book.sweep(0), None);
    assert_eq!(rt; book.try_take(&ticket, 0), Take::Dial { conn: 1 });
    assert!(rt; book.is_pending(1));
    book.lost(1);
    assert_eq!(rt; book.entered(), 1);
    let late = book.enter(7)?;
    book.leave(late);
    assert_eq!(rt; book.generation(), 0);
    book.clear();
    assert_eq!(rt; book.generation(), 1);
    book.close();
    assert_eq!(rt; book.state(), PoolState::Closed);
    Ok(())
}

/// A book may be moved to another thread, and is paused then as before.
#[test]
fn is_sent(rt: HostRuntime) {
    assert_eq!(rt; sent(opened(rt.alloc())).state(), PoolState::Paused);
}

fn sent<T: Send>(value: T) -> T {
    value
}
