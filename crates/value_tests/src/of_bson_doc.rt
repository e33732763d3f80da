//! Documents, names, ids, texts and lists, each public call on its happy path.
use crate::values::is_int32;
use bson_doc::{
    Buffer, Bytes, ClusterTime, Document, HasNul, Lsid, Name, NameFault, Oid, Rows, Text,
    TopologyVersion, Value, is_one,
};
use std::alloc::Global;
use std::test::Fail;

fn name(alloc: Global, text: &str) -> Result<Name, Fail> {
    Ok(Name::from_str(alloc, text)?)
}

/// `{a: 1, b: [true, {c: 2}], a: 3}`, of depth 3.
fn sample(alloc: Global) -> Result<Document, Fail> {
    let mut inner = Document::new(alloc);
    inner.push(name(alloc, "c")?, Value::Int32(2))?;
    let mut items = Rows::new(alloc);
    items.push(Value::Bool(true))?;
    items.push(Value::Doc(inner))?;
    let mut document = Document::new(alloc);
    document.push(name(alloc, "a")?, Value::Int32(1))?;
    document.push(name(alloc, "b")?, Value::Array(items))?;
    document.push(name(alloc, "a")?, Value::Int32(3))?;
    Ok(document)
}

#[test]
fn the_first_of_two_values_of_a_name_is_got(rt: HostRuntime) -> Result<(), Fail> {
    let document = sample(rt.alloc())?;
    assert!(rt; is_int32(document.get("a"), 1));
    assert!(rt; matches!(document.get("b"), Some(Value::Array(_))));
    assert!(rt; document.get("c").is_none());
    assert!(rt; document.get("").is_none());
    Ok(())
}

#[test]
fn pairs_are_found_by_place(rt: HostRuntime) -> Result<(), Fail> {
    let document = sample(rt.alloc())?;
    for (place, wanted) in [(0, "a"), (1, "b"), (2, "a")] {
        let found = document.at(place).ok_or("no pair")?;
        assert_eq!(rt; found.0.as_str(), wanted, "at {place}");
    }
    assert!(rt; document.at(3).is_none());
    Ok(())
}

#[test]
fn documents_and_arrays_count_for_the_depth(rt: HostRuntime) -> Result<(), Fail> {
    let alloc = rt.alloc();
    assert_eq!(rt; Document::new(alloc).depth(), 1);
    let document = sample(alloc)?;
    assert_eq!(rt; document.depth(), 3);
    let copy = document.copy(alloc)?;
    assert_eq!(rt; copy.depth(), 3);
    assert!(rt; is_int32(copy.get("a"), 1));
    Ok(())
}

#[test]
fn a_hundred_levels_are_copied_and_dropped(rt: HostRuntime) -> Result<(), Fail> {
    let alloc = rt.alloc();
    let mut document = Document::new(alloc);
    for _ in 1..100 {
        let mut outer = Document::new(alloc);
        outer.push(name(alloc, "d")?, Value::Doc(document))?;
        document = outer;
    }
    assert_eq!(rt; document.copy(alloc)?.depth(), 100);
    Ok(())
}

/// A document with one field of each kind that holds a text, bytes or a document, each under its kind's name.
fn held_kinds(alloc: Global) -> Result<Document, Fail> {
    let mut document = Document::new(alloc);
    document.push(
        name(alloc, "binary")?,
        Value::Binary {
            subtype: 4,
            bytes: Bytes::take(alloc, &[1, 2])?,
        },
    )?;
    document.push(
        name(alloc, "regex")?,
        Value::Regex {
            pattern: name(alloc, "^a")?,
            options: name(alloc, "ix")?,
        },
    )?;
    document.push(
        name(alloc, "pointer")?,
        Value::DbPointer {
            space: Text::take(alloc, "db.c")?,
            oid: Oid([7; 12]),
        },
    )?;
    document.push(name(alloc, "scope")?, code_with_scope(alloc)?)?;
    Ok(document)
}

/// The code `x` with a number in its scope.
fn code_with_scope(alloc: Global) -> Result<Value, Fail> {
    let mut scope = Document::new(alloc);
    scope.push(name(alloc, "x")?, Value::Int64(-1))?;
    Ok(Value::Scope {
        code: Text::take(alloc, "x")?,
        scope,
    })
}

fn is_binary(value: Option<&Value>, wanted: u8, held: &[u8]) -> bool {
    match value {
        Some(Value::Binary { subtype, bytes }) => *subtype == wanted && bytes.as_slice() == held,
        _ => false,
    }
}

fn is_regex(value: Option<&Value>, first: &str, second: &str) -> bool {
    match value {
        Some(Value::Regex { pattern, options }) => {
            pattern.as_str() == first && options.as_str() == second
        }
        _ => false,
    }
}

fn is_pointer(value: Option<&Value>, wanted: &str, id: Oid) -> bool {
    match value {
        Some(Value::DbPointer { space, oid }) => space.as_str() == wanted && *oid == id,
        _ => false,
    }
}

fn is_scope(value: Option<&Value>, wanted: &str, x: i64) -> bool {
    match value {
        Some(Value::Scope { code, scope }) => {
            code.as_str() == wanted && matches!(scope.get("x"), Some(Value::Int64(n)) if *n == x)
        }
        _ => false,
    }
}

#[test]
fn what_a_copy_holds_is_what_was_held(rt: HostRuntime) -> Result<(), Fail> {
    let held = held_kinds(rt.alloc())?;
    let copy = held.copy(rt.alloc())?;
    assert!(rt; is_binary(copy.get("binary"), 4, &[1, 2]));
    assert!(rt; is_regex(copy.get("regex"), "^a", "ix"));
    assert!(rt; is_pointer(copy.get("pointer"), "db.c", Oid([7; 12])));
    assert!(rt; is_scope(copy.get("scope"), "x", -1));
    Ok(())
}

#[test]
fn the_scope_of_code_counts_for_the_depth(rt: HostRuntime) -> Result<(), Fail> {
    assert_eq!(rt; held_kinds(rt.alloc())?.depth(), 2);
    Ok(())
}

#[test]
fn one_is_a_whole_number_or_a_double(rt: HostRuntime) -> Result<(), Fail> {
    assert!(rt; is_one(&Value::Int32(1)));
    assert!(rt; is_one(&Value::Int64(1)));
    assert!(rt; is_one(&Value::Double([0, 0, 0, 0, 0, 0, 0xf0, 0x3f])));
    assert!(rt; !is_one(&Value::Int32(-1)));
    assert!(rt; !is_one(&Value::Int64(4_294_967_297)));
    assert!(rt; !is_one(&Value::Double([1, 0, 0, 0, 0, 0, 0xf0, 0x3f])));
    assert!(rt; !is_one(&Value::Bool(true)));
    assert!(rt; !is_one(&Value::Stamp(1)));
    Ok(())
}

#[test]
fn ids_are_ordered_by_their_bytes_from_the_first_on(rt: HostRuntime) -> Result<(), Fail> {
    let mut low = [0xff; 12];
    low[0] = 1;
    let mut high = [0; 12];
    high[0] = 2;
    assert!(rt; Oid(low) < Oid(high));
    assert!(rt; Oid(low) == Oid(low));
    let mut last = [0; 16];
    last[15] = 1;
    assert!(rt; Lsid([0; 16]) < Lsid(last));
    Ok(())
}

#[test]
fn versions_differ_by_process_or_counter(rt: HostRuntime) -> Result<(), Fail> {
    let alloc = rt.alloc();
    let version = TopologyVersion {
        process: Oid([1; 12]),
        counter: 6,
    };
    assert!(rt; version == version);
    let later = TopologyVersion {
        process: Oid([1; 12]),
        counter: 7,
    };
    assert!(rt; version != later);
    let time = ClusterTime {
        stamp: 0x8000_0000_0000_0001,
        body: sample(alloc)?,
    };
    assert_eq!(rt; time.stamp >> 32, 0x8000_0000);
    assert_eq!(rt; time.body.depth(), 3);
    Ok(())
}

#[test]
fn a_name_has_no_zero(rt: HostRuntime) -> Result<(), Fail> {
    let alloc = rt.alloc();
    assert_eq!(rt; name(alloc, "insert")?.copy(alloc)?.as_str(), "insert");
    let refused = Name::new(Text::take(alloc, "ab\0c\0")?);
    assert!(rt; matches!(refused, Err(HasNul { at: 2 })));
    let refused = Name::from_str(alloc, "\0");
    assert!(rt; matches!(refused, Err(NameFault::HasNul { at: 0 })));
    Ok(())
}

#[test]
fn what_is_copied_is_the_same(rt: HostRuntime) -> Result<(), Fail> {
    let alloc = rt.alloc();
    let held = held_kinds(alloc)?;
    assert!(rt; held.same(&held.copy(alloc)?));
    let document = sample(alloc)?;
    assert!(rt; document.same(&sample(alloc)?));
    assert!(rt; !document.same(&held));
    Ok(())
}

#[test]
fn numbers_of_two_kinds_are_not_the_same(rt: HostRuntime) -> Result<(), Fail> {
    let alloc = rt.alloc();
    let mut short = Document::new(alloc);
    short.put(alloc, "n", Value::Int32(1))?;
    let mut long = Document::new(alloc);
    long.put(alloc, "n", Value::Int64(1))?;
    assert!(rt; !short.same(&long));
    let owned = Text::from_string(String::from_str(alloc, "n")?);
    assert!(rt; owned.same(&Text::take(alloc, "n")?));
    Ok(())
}

#[test]
fn texts_and_lists_keep_what_was_pushed(rt: HostRuntime) -> Result<(), Fail> {
    let alloc = rt.alloc();
    let mut text = Text::new(alloc);
    text.push('é')?;
    text.push('!')?;
    assert_eq!(rt; text.copy(alloc)?.as_str(), "é!");
    assert_eq!(rt; text.len(), 3);
    let mut bytes = Bytes::take(alloc, &[1, 2])?;
    bytes.reserve(3)?;
    bytes.push(3)?;
    assert_eq!(rt; bytes.len(), 3);
    let held = Bytes::from_vec(bytes.into_vec());
    assert_eq!(rt; held.as_slice(), [1, 2, 3].as_slice());
    Ok(())
}

#[test]
fn a_buffer_keeps_its_room_and_its_items(rt: HostRuntime) -> Result<(), Fail> {
    let mut buffer = Buffer::new(rt.alloc());
    buffer.reserve(2)?;
    buffer.put(7u8);
    buffer.put(8u8);
    buffer.push(9u8)?;
    assert_eq!(rt; buffer.len(), 3);
    assert_eq!(rt; buffer.as_slice(), [7, 8, 9].as_slice());
    let again = Buffer::from_rows(buffer.into_rows());
    assert_eq!(rt; again.len(), 3);
    Ok(())
}
