//! Each public call on its happy path. The crate `wire_cases` runs tables of documents, their bytes and hostile bytes.
use bson_doc::{Document, Name, Text, Value};
use bson_wire::{append, decode, encode, size};
use std::alloc::Global;
use std::test::Fail;

/// The spelling of `{a: 7}`.
const SEVEN: [u8; 12] = [12, 0, 0, 0, 0x10, b'a', 0, 7, 0, 0, 0, 0];

fn seven(alloc: Global) -> Result<Document, Fail> {
    let mut document = Document::new(alloc);
    let name = Name::new(Text::take(alloc, "a")?)?;
    document.push(name, Value::Int32(7))?;
    Ok(document)
}

#[test]
fn both_ways(rt: HostRuntime) -> Result<(), Fail> {
    let document = seven(rt.alloc())?;
    let spelled = encode(rt.alloc(), &document)?;
    assert_eq!(rt; spelled.as_slice(), SEVEN.as_slice());
    assert_eq!(rt; size(&document), 12);
    let (read, count) = decode(rt.alloc(), &SEVEN)?;
    assert_eq!(rt; count, 12);
    assert!(rt; matches!(read.get("a"), Some(Value::Int32(7))));
    Ok(())
}

/// The empty document, 05000000 00, behind a byte.
#[test]
fn appends_a_document(rt: HostRuntime) -> Result<(), Fail> {
    let alloc = rt.alloc();
    let mut bytes = Vec::new(alloc);
    bytes.push(7)?;
    let all = append(bytes, &Document::new(alloc))?;
    assert!(rt; all.as_slice() == [7, 5, 0, 0, 0, 0].as_slice());
    Ok(())
}

/// The empty document has 5 bytes, and {b: 2147483648} 16: its total, the element 12 6200 0000008000000000, and 00.
#[test]
fn sizes_of_spellings(rt: HostRuntime) -> Result<(), Fail> {
    let alloc = rt.alloc();
    let mut document = Document::new(alloc);
    assert_eq!(rt; size(&document), 5);
    let name = Name::new(Text::take(alloc, "b")?)?;
    document.push(name, Value::Int64(2_147_483_648))?;
    assert_eq!(rt; size(&document), 16);
    Ok(())
}
