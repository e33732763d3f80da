//! A run of times, of which the first of the greatest is kept.
use bson_doc::{ClusterTime, Document, Name, Text, Value};
use time_gossip::TimeGossip;
use time_gossip::laws::first_of_the_greatest;

/// A time whose body tells it apart from another one with its stamp.
fn time(rt: HostRuntime, stamp: u64, mark: i32) -> ClusterTime {
    let mut body = Document::new(rt.alloc());
    if let Ok(text) = Text::take(rt.alloc(), "mark") {
        if let Ok(name) = Name::new(text) {
            let _ = body.push(name, Value::Int32(mark));
        }
    }
    ClusterTime { stamp, body }
}

/// The mark of the time that is kept.
fn kept(gossip: &TimeGossip) -> Option<i32> {
    gossip.greatest()?.body.get("mark")?.int32()
}

#[test]
fn the_first_of_the_greatest_stamps_stays(rt: HostRuntime) {
    let mut gossip = TimeGossip::new();
    assert!(rt; gossip.greatest().is_none());
    gossip.advance(time(rt, 5, 1));
    assert_eq!(rt; kept(&gossip), Some(1));
    gossip.advance(time(rt, 4, 2));
    assert_eq!(rt; kept(&gossip), Some(1));
    gossip.advance(time(rt, 5, 3));
    assert_eq!(rt; kept(&gossip), Some(1));
    gossip.advance(time(rt, u64::MAX, 4));
    assert_eq!(rt; kept(&gossip), Some(4));
    first_of_the_greatest();
}
