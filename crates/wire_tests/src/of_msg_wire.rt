//! Each public call on its happy path. The crate `wire_cases` runs tables of messages and hostile ones.
use bson_doc::Document;
use msg_wire::{need, read, write};
use std::test::Fail;

/// The least message, with the id 7 to the id 1: its document is empty.
const LEAST: [u8; 26] = [
    0x1a, 0, 0, 0, 7, 0, 0, 0, 1, 0, 0, 0, 0xdd, 7, 0, 0, 0, 0, 0, 0, 0, 5, 0, 0, 0, 0,
];

#[test]
#[tactic(auto, unfolding(msg_wire::specs::Flags::refused_bit))]
fn both_ways(rt: HostRuntime) -> Result<(), Fail> {
    let written = write(rt.alloc(), 7, 1, 0, &Document::new(rt.alloc()))?;
    assert_eq!(rt; written.as_slice(), LEAST.as_slice());
    assert_eq!(rt; need(&LEAST), Some(26));
    let message = read(rt.alloc(), &LEAST)?;
    assert_eq!(rt;
        (message.id, message.to, message.flags, message.length),
        (7, 1, 0, 26)
    );
    assert_eq!(rt; message.body.elements.len(), 0);
    assert_eq!(rt; message.sequences.len(), 0);
    Ok(())
}
