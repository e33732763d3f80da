//! Scripts, and the commands or the first fault that each is read as.
use bson_doc::{Bytes, Rows};
use bson_text::TextFault;
use cmd_build::{Act, Command};
use net_link::SliceSource;
use script_text::{ScriptFault, ScriptKind, ScriptRead, read_script};
use std::alloc::{AllocError, Global};
use std::test::Fail;

/// A line that is a command.
const LINE: &str = r#"{"lane":1,"op":"insert","coll":"a","doc":{}}"#;

/// Scripts of one line, and the answer to each: the lane, database, collection and number of elements of its command, or
/// the number of the line and what is wrong with it.
const LINES: [(&str, &str); 94] = [
    // Whole commands.
    (
        r#"{"lane":1,"op":"insert","coll":"a","doc":{"_id":7}}"#,
        "1 - a 1;",
    ),
    (
        r#"{"lane":64,"op":"insert","coll":"a","db":"d","doc":{}}"#,
        "64 d a 0;",
    ),
    (
        r#"{"doc":{"b":[],"c":null},"db":"d","coll":"a.b","op":"insert","lane":2}"#,
        "2 d a.b 2;",
    ),
    (
        r#"  { "lane" : 3 , "op" : "insert" , "coll" : "a" , "doc" : { } }  "#,
        "3 - a 0;",
    ),
    (
        "\t{\"lane\":4,\t\"op\":\"insert\",\"coll\":\"$é\",\"doc\":{}}",
        "4 - $é 0;",
    ),
    (
        r#"{"l\u0061ne":5,"op":"ins\u0065rt","coll":"a","doc":{}}"#,
        "5 - a 0;",
    ),
    // A member that is missing.
    (r#"{}"#, "1 shape"),
    (r#"{"op":"insert","coll":"a","doc":{}}"#, "1 shape"),
    (r#"{"lane":1,"coll":"a","doc":{}}"#, "1 shape"),
    (r#"{"lane":1,"op":"insert","doc":{}}"#, "1 shape"),
    (r#"{"lane":1,"op":"insert","coll":"a"}"#, "1 shape"),
    // A member of a wrong kind.
    (
        r#"{"lane":"1","op":"insert","coll":"a","doc":{}}"#,
        "1 shape",
    ),
    (
        r#"{"lane":null,"op":"insert","coll":"a","doc":{}}"#,
        "1 shape",
    ),
    (
        r#"{"lane":true,"op":"insert","coll":"a","doc":{}}"#,
        "1 shape",
    ),
    (
        r#"{"lane":[1],"op":"insert","coll":"a","doc":{}}"#,
        "1 shape",
    ),
    (r#"{"lane":1,"op":1,"coll":"a","doc":{}}"#, "1 shape"),
    (r#"{"lane":1,"op":null,"coll":"a","doc":{}}"#, "1 shape"),
    (
        r#"{"lane":1,"op":["insert"],"coll":"a","doc":{}}"#,
        "1 shape",
    ),
    (r#"{"lane":1,"op":"insert","coll":1,"doc":{}}"#, "1 shape"),
    (
        r#"{"lane":1,"op":"insert","coll":null,"doc":{}}"#,
        "1 shape",
    ),
    (r#"{"lane":1,"op":"insert","coll":{},"doc":{}}"#, "1 shape"),
    (
        r#"{"lane":1,"op":"insert","coll":"a","db":null,"doc":{}}"#,
        "1 shape",
    ),
    (
        r#"{"lane":1,"op":"insert","coll":"a","db":1,"doc":{}}"#,
        "1 shape",
    ),
    (r#"{"lane":1,"op":"insert","coll":"a","doc":[]}"#, "1 shape"),
    (
        r#"{"lane":1,"op":"insert","coll":"a","doc":null}"#,
        "1 shape",
    ),
    (
        r#"{"lane":1,"op":"insert","coll":"a","doc":"{}"}"#,
        "1 shape",
    ),
    (
        r#"{"lane":1,"op":"insert","coll":"a","doc":1.5}"#,
        "1 shape",
    ),
    // No commands. The other commands stand in the case files of `wire_cases`.
    (r#"{"lane":1,"op":"update","coll":"a","doc":{}}"#, "1 shape"),
    (r#"{"lane":1,"op":"Insert","coll":"a","doc":{}}"#, "1 shape"),
    (
        r#"{"lane":1,"op":"inserts","coll":"a","doc":{}}"#,
        "1 shape",
    ),
    (r#"{"lane":1,"op":"","coll":"a","doc":{}}"#, "1 shape"),
    // A member that is unknown.
    (
        r#"{"lane":1,"op":"insert","coll":"a","doc":{},"x":1}"#,
        "1 shape",
    ),
    (
        r#"{"lane":1,"op":"insert","coll":"a","doc":{},"filter":{}}"#,
        "1 shape",
    ),
    (
        r#"{"lane":1,"op":"insert","coll":"a","doc":{},"Lane":1}"#,
        "1 shape",
    ),
    (
        r#"{"lane":1,"op":"insert","coll":"a","doc":{},"":1}"#,
        "1 shape",
    ),
    (
        r#"{"lane":1,"op":"insert","coll":"a","doc":{},"do":1}"#,
        "1 shape",
    ),
    (
        r#"{"lane":1,"op":"insert","coll":"a","doc":{},"docs":1}"#,
        "1 shape",
    ),
    // A member that stands twice counts by its last value.
    (
        r#"{"lane":0,"op":"insert","coll":"a","doc":{},"lane":6}"#,
        "6 - a 0;",
    ),
    (
        r#"{"lane":6,"op":"insert","coll":"a","doc":{},"lane":0}"#,
        "1 lane",
    ),
    (
        r#"{"lane":1,"op":"insert","coll":"","doc":{},"coll":"b"}"#,
        "1 - b 0;",
    ),
    (
        r#"{"lane":1,"op":"insert","coll":"a","doc":{"a":1,"a":2}}"#,
        "1 - a 1;",
    ),
    // Names that are empty or have a zero.
    (r#"{"lane":1,"op":"insert","coll":"","doc":{}}"#, "1 shape"),
    (
        r#"{"lane":1,"op":"insert","coll":"a\u0000b","doc":{}}"#,
        "1 shape",
    ),
    (
        r#"{"lane":1,"op":"insert","coll":"a","db":"","doc":{}}"#,
        "1 shape",
    ),
    (
        r#"{"lane":1,"op":"insert","coll":"a","db":"\u0000","doc":{}}"#,
        "1 shape",
    ),
    // Lanes.
    (r#"{"lane":0,"op":"insert","coll":"a","doc":{}}"#, "1 lane"),
    (r#"{"lane":65,"op":"insert","coll":"a","doc":{}}"#, "1 lane"),
    (r#"{"lane":-1,"op":"insert","coll":"a","doc":{}}"#, "1 lane"),
    (
        r#"{"lane":4294967297,"op":"insert","coll":"a","doc":{}}"#,
        "1 lane",
    ),
    (
        r#"{"lane":18446744073709551615,"op":"insert","coll":"a","doc":{}}"#,
        "1 lane",
    ),
    (
        r#"{"lane":-9223372036854775808,"op":"insert","coll":"a","doc":{}}"#,
        "1 lane",
    ),
    (
        r#"{"lane":18446744073709551616,"op":"insert","coll":"a","doc":{}}"#,
        "1 shape",
    ),
    (
        r#"{"lane":1.0,"op":"insert","coll":"a","doc":{}}"#,
        "1 shape",
    ),
    (
        r#"{"lane":1e1,"op":"insert","coll":"a","doc":{}}"#,
        "1 shape",
    ),
    (
        r#"{"lane":0.5,"op":"insert","coll":"a","doc":{}}"#,
        "1 shape",
    ),
    (
        r#"{"lane":-0,"op":"insert","coll":"a","doc":{}}"#,
        "1 shape",
    ),
    (r#"{"lane":01,"op":"insert","coll":"a","doc":{}}"#, "1 json"),
    (r#"{"lane":+1,"op":"insert","coll":"a","doc":{}}"#, "1 json"),
    // Documents.
    (
        r#"{"lane":1,"op":"insert","coll":"a","doc":{"a":2147483647,"b":2147483648}}"#,
        "1 - a 2;",
    ),
    (
        r#"{"lane":1,"op":"insert","coll":"a","doc":{"a":9223372036854775807}}"#,
        "1 - a 1;",
    ),
    (
        r#"{"lane":1,"op":"insert","coll":"a","doc":{"a":-9223372036854775808}}"#,
        "1 - a 1;",
    ),
    (
        r#"{"lane":1,"op":"insert","coll":"a","doc":{"a":9223372036854775808}}"#,
        "1 too big a",
    ),
    (
        r#"{"lane":1,"op":"insert","coll":"a","doc":{"a":18446744073709551615}}"#,
        "1 too big a",
    ),
    (
        r#"{"lane":1,"op":"insert","coll":"a","doc":{"a":18446744073709551616}}"#,
        "1 fraction a",
    ),
    (
        r#"{"lane":1,"op":"insert","coll":"a","doc":{"a":[0,{"b":1.5}]}}"#,
        "1 fraction a.1.b",
    ),
    (
        r#"{"lane":1,"op":"insert","coll":"a","doc":{"a\u0000":1}}"#,
        "1 nul a\0",
    ),
    // The shape comes before the lane, and the lane before the document.
    (r#"{"lane":65,"op":"insert","coll":"a"}"#, "1 shape"),
    (r#"{"lane":65,"op":"insert","coll":"","doc":{}}"#, "1 shape"),
    (
        r#"{"lane":65,"op":"insert","coll":"a","doc":{"a":1.5}}"#,
        "1 lane",
    ),
    (
        r#"{"lane":1,"op":"insert","coll":"a","doc":{"a":1.5},"x":1}"#,
        "1 shape",
    ),
    // Values that are no objects.
    ("[]", "1 shape"),
    ("1", "1 shape"),
    ("null", "1 shape"),
    (r#""lane""#, "1 shape"),
    // Texts that are no JSON.
    ("{", "1 json"),
    ("x", "1 json"),
    ("{}{}", "1 json"),
    ("{'lane':1}", "1 json"),
    (r#"{"lane":1,}"#, "1 json"),
    (r#"{"lane":1 // one"#, "1 json"),
    ("\u{feff}{}", "1 json"),
    ("\t", "1 json"),
    ("  \r", "1 json"),
    ("{\"a\":\"\u{1}\"}", "1 json"),
    // Blank lines say nothing, and count.
    ("", ""),
    (" ", ""),
    ("     ", ""),
    ("\n", ""),
    ("\r\n", ""),
    ("  \r\n  \n", ""),
    ("\n\n{", "3 json"),
    ("   \n\r\n{}\n", "3 shape"),
    // The first fault is told.
    ("{\n{}\n", "1 json"),
    ("{}\n{\n", "1 shape"),
];

#[test]
fn lines_and_faults(rt: HostRuntime) -> Result<(), Fail> {
    for (text, wanted) in &LINES {
        let answer = answer_of(rt.alloc(), text.as_bytes())?;
        assert_eq!(rt; answer.as_str(), *wanted, "{text}");
    }
    Ok(())
}

/// Whether the answer to a script is this.
fn is_answer(alloc: Global, script: &[u8], wanted: &str) -> Result<bool, Fail> {
    let answer = answer_of(alloc, script)?;
    Ok(answer.as_str() == wanted)
}

/// What stands ahead of a line, between it and the same line, and behind that.
const CUTS: [(&str, &str, &str); 5] = [
    ("", "\n", "\n"),
    ("", "\n", ""),
    ("", "\r\n", "\r\n"),
    ("", "\r\n", "\r"),
    ("\n  ", "  \n   \n", "\n\n"),
];

#[test]
fn lines_are_cut_at_each_lf(rt: HostRuntime) -> Result<(), Fail> {
    let alloc = rt.alloc();
    for (front, middle, behind) in CUTS {
        let text = format!(in alloc; "{front}{LINE}{middle}{LINE}{behind}")?;
        let is_two = is_answer(alloc, text.as_bytes(), "1 - a 0;1 - a 0;")?;
        assert!(rt; is_two, "{text}");
    }
    Ok(())
}

#[test]
fn the_second_of_two_lines_is_told(rt: HostRuntime) -> Result<(), Fail> {
    let alloc = rt.alloc();
    let second = format!(in alloc;
        "{LINE}\n{{\"lane\":0,\"op\":\"insert\",\"coll\":\"a\",\"doc\":{{}}}}"
    )?;
    let is_lane = is_answer(alloc, second.as_bytes(), "2 lane")?;
    let two_on_a_line = format!(in alloc; "{LINE}\r{LINE}")?;
    let is_json = is_answer(alloc, two_on_a_line.as_bytes(), "1 json")?;
    assert_eq!(rt; (is_lane, is_json), (true, true));
    Ok(())
}

#[test]
fn bytes_that_are_no_utf8(rt: HostRuntime) -> Result<(), Fail> {
    let alloc = rt.alloc();
    let told = [
        is_answer(alloc, b"\xff", "1 json")?,
        is_answer(alloc, b"\n{\"a\":\"\xc3\"}\n", "2 json")?,
        is_answer(alloc, b" \n\xc0\x80", "2 json")?,
    ];
    assert_eq!(rt; told, [true; 3]);
    Ok(())
}

#[test]
fn depths_of_documents_and_of_json(rt: HostRuntime) -> Result<(), Fail> {
    // The document lies one level inside its line.
    for (depth, wanted) in [
        (90, "1 - a 1;"),
        (91, "1 deep"),
        (126, "1 deep"),
        (127, "1 json"),
    ] {
        let answer = nested_document(rt.alloc(), depth)?;
        assert_eq!(rt; answer.as_str(), wanted, "{depth}");
    }
    Ok(())
}

/// How many commands a script has.
fn count_of(alloc: Global, script: &[u8]) -> Result<Option<usize>, Fail> {
    let mut source = SliceSource::new(Bytes::take(alloc, script)?, Rows::new(alloc));
    Ok(
        read_script(alloc, &mut source)
            .ok()
            .map(|commands| commands.len()),
    )
}

/// Whether that line more, behind so many commands that no more may stand there, is told so.
fn is_told(alloc: Global, most: &str, line: &str, wanted: &str) -> Result<bool, Fail> {
    let text = format!(in alloc; "{most}{line}")?;
    is_answer(alloc, text.as_bytes(), wanted)
}

#[test]
fn one_command_too_many(rt: HostRuntime) -> Result<(), Fail> {
    let alloc = rt.alloc();
    let most = repeated(alloc, LINE, 100_000)?;
    let count = count_of(alloc, most.as_bytes())?;
    let one_more = format!(in alloc; "\n{LINE}\n")?;
    let is_long = is_told(alloc, most.as_str(), one_more.as_str(), "100002 long")?;
    let is_json = is_told(alloc, most.as_str(), "{\n", "100001 json")?;
    assert_eq!(rt; (count, is_long, is_json), (Some(100_000), true, true));
    Ok(())
}

/// Appends as many bytes as a script may have: a line at fault, an empty one, and blanks.
fn push_most(bytes: &mut Vec<u8>) -> Result<(), AllocError> {
    bytes.extend_from_slice(b"{\n\n")?;
    let blanks = [b' '; 4096];
    for _ in 0..4095 {
        bytes.extend_from_slice(&blanks)?;
    }
    bytes.extend_from_slice(&blanks[..4093])
}

#[test]
fn one_byte_too_many(rt: HostRuntime) -> Result<(), Fail> {
    let alloc = rt.alloc();
    let mut bytes = Vec::new(alloc);
    push_most(&mut bytes)?;
    let length = bytes.len();
    let is_json = is_answer(alloc, bytes.as_slice(), "1 json")?;
    bytes.push(b'\n')?;
    let is_long = is_answer(alloc, bytes.as_slice(), "3 long")?;
    bytes.push(b'\n')?;
    let is_longer = is_answer(alloc, bytes.as_slice(), "3 long")?;
    assert_eq!(rt; length, 16_777_216);
    assert_eq!(rt; (is_json, is_long, is_longer), (true, true, true));
    Ok(())
}

/// What a script of one line comes to whose read of that number fails: whether that is told, and whether it is read.
fn read_failing(alloc: Global, call: u64) -> Result<(bool, bool), Fail> {
    let fails = Rows::take(alloc, &[call])?;
    let mut source = SliceSource::new(Bytes::take(alloc, LINE.as_bytes())?, fails);
    let read = read_script(alloc, &mut source);
    Ok((matches!(read, Err(ScriptRead::ReadFault)), read.is_ok()))
}

#[test]
fn a_read_that_fails(rt: HostRuntime) -> Result<(), Fail> {
    let read = [
        read_failing(rt.alloc(), 1)?,
        read_failing(rt.alloc(), 2)?,
        read_failing(rt.alloc(), 3)?,
    ];
    assert_eq!(rt; read, [(true, false), (true, false), (false, true)]);
    Ok(())
}

#[test]
fn faults_are_shown(rt: HostRuntime) -> Result<(), Fail> {
    let fault = ScriptFault {
        line: 2,
        kind: ScriptKind::Text(TextFault::Shape),
    };
    let shown = format!(in rt.alloc(); "{}", ScriptRead::Fault(fault))?;
    assert_eq!(rt; shown.as_str(), "line 2: the value is no object");
    Ok(())
}

/// The answer to a script whose line inserts a document of that depth.
fn nested_document(alloc: Global, depth: u32) -> Result<String, Fail> {
    let mut text = String::from_str(
        alloc,
        "{\"lane\":1,\"op\":\"insert\",\"coll\":\"a\",\"doc\":",
    )?;
    for _ in 1..depth {
        text.push_str("{\"a\":")?;
    }
    text.push_str("{}")?;
    for _ in 1..depth {
        text.push_str("}")?;
    }
    text.push_str("}")?;
    let answer = answer_of(alloc, text.as_bytes())?;
    if answer.as_str().starts_with("1 deep") {
        return Ok(String::from_str(alloc, "1 deep")?);
    }
    Ok(answer)
}

/// A line so many times.
fn repeated(alloc: Global, line: &str, times: u32) -> Result<String, AllocError> {
    let mut text = String::new(alloc);
    for _ in 0..times {
        push_line(&mut text, line)?;
    }
    Ok(text)
}

fn push_line(text: &mut String, line: &str) -> Result<(), AllocError> {
    text.push_str(line)?;
    text.push_str("\n")
}

/// The answer to a script, as it is shown here.
fn answer_of(alloc: Global, script: &[u8]) -> Result<String, Fail> {
    let mut source = SliceSource::new(Bytes::take(alloc, script)?, Rows::new(alloc));
    match read_script(alloc, &mut source) {
        Ok(commands) => Ok(shown_commands(alloc, commands.as_slice())?),
        Err(ScriptRead::Fault(fault)) => Ok(shown_fault(alloc, fault)?),
        Err(ScriptRead::ReadFault) => Ok(String::from_str(alloc, "read fault")?),
        Err(ScriptRead::Memory) => Ok(String::from_str(alloc, "memory")?),
    }
}

fn shown_commands(alloc: Global, commands: &[Command]) -> Result<String, AllocError> {
    let mut shown = String::new(alloc);
    for command in commands {
        let db = match &command.db {
            Some(db) => db.as_str(),
            None => "-",
        };
        let size = match &command.act {
            Act::Insert { doc } => doc.elements.len(),
            _ => 0,
        };
        let lane = command.lane;
        let coll = command.coll.as_str();
        shown.push_str(format!(in alloc; "{lane} {db} {coll} {size};")?.as_str())?;
    }
    Ok(shown)
}

fn shown_fault(alloc: Global, fault: ScriptFault) -> Result<String, AllocError> {
    let ScriptFault { line, kind } = fault;
    match kind {
        ScriptKind::Json => format!(in alloc; "{line} json"),
        ScriptKind::Shape => format!(in alloc; "{line} shape"),
        ScriptKind::Lane => format!(in alloc; "{line} lane"),
        ScriptKind::Long => format!(in alloc; "{line} long"),
        ScriptKind::Text(TextFault::Fraction { path }) => format!(in alloc;
            "{line} fraction {}",
            path.as_str()
        ),
        ScriptKind::Text(TextFault::TooBig { path }) => format!(in alloc;
            "{line} too big {}",
            path.as_str()
        ),
        ScriptKind::Text(TextFault::Nul { path }) => format!(in alloc;
            "{line} nul {}",
            path.as_str()
        ),
        ScriptKind::Text(TextFault::Deep { path }) => format!(in alloc;
            "{line} deep {}",
            path.as_str()
        ),
        ScriptKind::Text(TextFault::Shape | TextFault::Memory) => format!(in alloc;
            "{line} another text"
        ),
    }
}
