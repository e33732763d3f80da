//! A reply that says nothing. The crate `wire_cases` runs tables of replies.
use bson_doc::Document;
use cmd_outcome::classify;

#[test]
fn an_empty_reply_is_an_error(rt: HostRuntime) {
    let reading = classify(&Document::new(rt.alloc()));
    assert!(rt; !reading.retryable);
}
