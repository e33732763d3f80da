//! Runs of calls with their answers; the moments are microseconds.
use bson_doc::Lsid;
use sess_book::laws::{ids_differ, numbers_rise_by_one, one_holder};
use sess_book::{Holding, Leased, SessBook, fresh_id};
use std::test::Fail;

/// The version and variant bits of an id are set, whatever the words.
#[test]
fn ids_are_of_version_4(rt: HostRuntime) {
    assert_eq!(rt;
        fresh_id(0, 0),
        Lsid([0, 0, 0, 0, 0, 0, 0x40, 0, 0x80, 0, 0, 0, 0, 0, 0, 0])
    );
    assert_eq!(rt;
        fresh_id(u64::MAX, u64::MAX),
        Lsid([
            255, 255, 255, 255, 255, 255, 0x4f, 255, 0xbf, 255, 255, 255, 255, 255, 255, 255
        ])
    );
    ids_differ();
    one_holder();
    numbers_rise_by_one();
}

/// A session of thirty minutes that is given back at 0 is leased again with one minute left, and not with less.
#[test]
fn a_session_is_leased_again_while_a_minute_is_left(rt: HostRuntime) -> Result<(), Fail> {
    let mut book = SessBook::new(rt.alloc());
    if let Leased::Lease(lease) = book.take(0, 30, 1, 2)? {
        if book.holding(&lease) == Holding::Leased {
            assert!(rt; book.give_back(lease, 0, false));
        }
    }
    assert_eq!(rt; book.ending(rt.alloc())?.len(), 1);
    let again = book.take(1_740_000_000, 30, 3, 4)?;
    assert!(rt;
        matches!(&again, Leased::Lease(lease) if !lease.fresh() && lease.lsid() == fresh_id(1, 2))
    );
    Ok(())
}
