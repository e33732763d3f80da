//! JSON texts, and the document or the first fault that each is read as.
use bson_doc::{Document, Name, Value};
use bson_text::{TextFault, from_json};
use serde_json::Value as Json;
use std::alloc::{AllocError, Global};
use std::test::Fail;

/// JSON texts, and the document or the fault of each. An int64 is shown with an `L` behind it.
const TEXTS: [(&str, &str); 44] = [
    // Objects, names and kinds.
    ("{}", "{}"),
    (r#"{"b":2147483648,"a":1}"#, "{a=1,b=2147483648L}"),
    (r#"{"a":"x","b":""}"#, "{a='x',b=''}"),
    (
        r#"{"a":true,"b":false,"c":null}"#,
        "{a=true,b=false,c=null}",
    ),
    (r#"{"a":[],"b":{}}"#, "{a=[],b={}}"),
    (
        r#"{"a":[1,[2,"x"],{"b":null}]}"#,
        "{a=[1,[2,'x'],{b=null}]}",
    ),
    (r#"{"a":{"b":{"c":-1}}}"#, "{a={b={c=-1}}}"),
    (r#"{"":7}"#, "{=7}"),
    (r#"{"a":1,"a":2}"#, "{a=2}"),
    (r#"{"a":"x\u0000y"}"#, "{a='x\0y'}"),
    (r#"{"é":1,"z":2,"B":3}"#, "{B=3,z=2,é=1}"),
    // What is no object.
    ("[]", "shape"),
    ("[{}]", "shape"),
    ("1", "shape"),
    ("1.5", "shape"),
    ("null", "shape"),
    ("true", "shape"),
    (r#""{}""#, "shape"),
    // Integers at the ends of their ranges.
    (r#"{"a":0}"#, "{a=0}"),
    (r#"{"a":2147483647}"#, "{a=2147483647}"),
    (r#"{"a":2147483648}"#, "{a=2147483648L}"),
    (r#"{"a":-2147483648}"#, "{a=-2147483648}"),
    (r#"{"a":-2147483649}"#, "{a=-2147483649L}"),
    (r#"{"a":9223372036854775807}"#, "{a=9223372036854775807L}"),
    (r#"{"a":9223372036854775808}"#, "too big: a"),
    (r#"{"a":18446744073709551615}"#, "too big: a"),
    (r#"{"a":18446744073709551616}"#, "fraction: a"),
    (r#"{"a":-9223372036854775808}"#, "{a=-9223372036854775808L}"),
    (r#"{"a":-9223372036854775809}"#, "fraction: a"),
    // Floats, also those without a fraction.
    (r#"{"a":1.5}"#, "fraction: a"),
    (r#"{"a":1.0}"#, "fraction: a"),
    (r#"{"a":1e1}"#, "fraction: a"),
    (r#"{"a":-0}"#, "fraction: a"),
    // Paths.
    (r#"{"a":[0,9223372036854775808]}"#, "too big: a.1"),
    (r#"{"x":{"y":[0,{"z":0.5}]}}"#, "fraction: x.y.1.z"),
    (r#"{"a":[[[1.5]]]}"#, "fraction: a.0.0.0"),
    (r#"{"":{"":1.5}}"#, "fraction: ."),
    (r#"{"a.b":{"c":1.5}}"#, "fraction: a.b.c"),
    (r#"{"a":[0,1,2,3,4,5,6,7,8,9,1.5]}"#, "fraction: a.10"),
    // The first fault in the order of the walk, which is that of the names.
    (r#"{"b":1.5,"a":9223372036854775808}"#, "too big: a"),
    (r#"{"a":[9223372036854775808],"b":1.5}"#, "too big: a.0"),
    (r#"{"a":[1.5,9223372036854775808]}"#, "fraction: a.0"),
    // A name comes before its value.
    (r#"{"a\u0000b":1.5}"#, "nul: a\0b"),
    (r#"{"a":{"b":1,"c\u0000":2}}"#, "nul: a.c\0"),
];

#[test]
fn objects_and_faults(rt: HostRuntime) -> Result<(), Fail> {
    for (text, wanted) in &TEXTS {
        let answer = answer_of(rt.alloc(), *text)?;
        assert_eq!(rt; answer.as_str(), *wanted, "{text}");
    }
    Ok(())
}

#[test]
fn depth_90_is_read(rt: HostRuntime) -> Result<(), Fail> {
    let objects = nested(rt.alloc(), "{\"a\":", "{}", "}", 89)?;
    let arrays = nested(rt.alloc(), "[", "[]", "]", 88)?;
    let arrays = format!(in rt.alloc(); "{{\"a\":{arrays}}}")?;
    for text in [objects.as_str(), arrays.as_str()] {
        let value = Json::from_str(rt.alloc(), text)?;
        let document = from_json(rt.alloc(), &value)?;
        assert_eq!(rt; document.depth(), 90);
    }
    Ok(())
}

#[test]
fn depth_91_is_too_deep(rt: HostRuntime) -> Result<(), Fail> {
    // What lies in the object at depth 91 is not looked at.
    let text = nested(rt.alloc(), "{\"a\":", "{\"b\":1.5}", "}", 90)?;
    let path = nested(rt.alloc(), "a.", "a", "", 89)?;
    let wanted = format!(in rt.alloc(); "deep: {path}")?;
    assert_eq!(rt;
        answer_of(rt.alloc(), text.as_str())?.as_str(),
        wanted.as_str()
    );
    // A fault that stands before it comes first, and one behind it does not.
    let arrays = nested(rt.alloc(), "[", "[]", "]", 89)?;
    let before = format!(in rt.alloc(); "{{\"a\":1.5,\"b\":{arrays}}}")?;
    assert_eq!(rt;
        answer_of(rt.alloc(), before.as_str())?.as_str(),
        "fraction: a"
    );
    let behind = format!(in rt.alloc(); "{{\"b\":{arrays},\"c\":1.5}}")?;
    let path = nested(rt.alloc(), "", "b", ".0", 89)?;
    let wanted = format!(in rt.alloc(); "deep: {path}")?;
    assert_eq!(rt;
        answer_of(rt.alloc(), behind.as_str())?.as_str(),
        wanted.as_str()
    );
    Ok(())
}

#[test]
fn faults_are_shown(rt: HostRuntime) -> Result<(), Fail> {
    let shown = format!(in rt.alloc(); "{}", TextFault::Shape)?;
    assert_eq!(rt; shown.as_str(), "the value is no object");
    Ok(())
}

/// A text with others in front of it and behind it, so many times each.
fn nested(
    alloc: Global,
    front: &str,
    inside: &str,
    behind: &str,
    times: u32,
) -> Result<String, AllocError> {
    let mut text = String::new(alloc);
    for _ in 0..times {
        text.push_str(front)?;
    }
    text.push_str(inside)?;
    for _ in 0..times {
        text.push_str(behind)?;
    }
    Ok(text)
}

/// What `from_json` answers to the value of a text, as it is shown here.
fn answer_of(alloc: Global, text: &str) -> Result<String, Fail> {
    let value = Json::from_str(alloc, text)?;
    let answer = match from_json(alloc, &value) {
        Ok(document) => {
            let mut shown = String::new(alloc);
            show_document(alloc, &mut shown, &document)?;
            return Ok(shown);
        }
        Err(fault) => fault,
    };
    let shown = match answer {
        TextFault::Shape => String::from_str(alloc, "shape")?,
        TextFault::Fraction { path } => format!(in alloc; "fraction: {}", path.as_str())?,
        TextFault::TooBig { path } => format!(in alloc; "too big: {}", path.as_str())?,
        TextFault::Nul { path } => format!(in alloc; "nul: {}", path.as_str())?,
        TextFault::Deep { path } => format!(in alloc; "deep: {}", path.as_str())?,
        TextFault::Memory => String::from_str(alloc, "memory")?,
    };
    Ok(shown)
}

#[cycle(show)]
fn show_document(alloc: Global, out: &mut String, document: &Document) -> Result<(), AllocError> {
    show_elements(alloc, out, document.elements.as_slice())
}

#[cycle(show)]
fn show_elements(
    alloc: Global,
    out: &mut String,
    elements: &[(Name, Value)],
) -> Result<(), AllocError> {
    out.push_str("{")?;
    for (place, (name, value)) in elements.iter().enumerate() {
        out.push_str(if place == 0 { "" } else { "," })?;
        out.push_str(name.as_str())?;
        out.push_str("=")?;
        show_value(alloc, out, value)?;
    }
    out.push_str("}")
}

#[cycle(show)]
fn show_items(alloc: Global, out: &mut String, items: &[Value]) -> Result<(), AllocError> {
    out.push_str("[")?;
    for (place, value) in items.iter().enumerate() {
        out.push_str(if place == 0 { "" } else { "," })?;
        show_value(alloc, out, value)?;
    }
    out.push_str("]")
}

#[cycle(show)]
fn show_value(alloc: Global, out: &mut String, value: &Value) -> Result<(), AllocError> {
    let shown = match value {
        Value::Doc(inside) => return show_document(alloc, out, inside),
        Value::Array(items) => return show_items(alloc, out, items.as_slice()),
        Value::Str(text) => format!(in alloc; "'{}'", text.as_str())?,
        Value::Bool(truth) => format!(in alloc; "{truth}")?,
        Value::Null => String::from_str(alloc, "null")?,
        Value::Int32(n) => format!(in alloc; "{n}")?,
        Value::Int64(n) => format!(in alloc; "{n}L")?,
        _ => String::from_str(alloc, "another kind")?,
    };
    out.push_str(shown.as_str())
}
