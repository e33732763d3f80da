//! The commands that are run.
use bson_doc::Memory;
use std::alloc::Global;

/// How many commands there are.
pub const COMMANDS: u32 = 40;

/// Forty commands, of eight kinds one after another.
pub fn script(alloc: Global) -> Result<String, Memory> {
    let mut text = String::new(alloc);
    for number in 0..COMMANDS {
        push_command(&mut text, number)?;
    }
    Ok(text)
}

/// The line of the command of that number. An update with `multi`, and a delete with a limit of 0, have no transaction number and are
/// not sent again.
fn push_command(text: &mut String, number: u32) -> Result<(), Memory> {
    text.push_str("{\"lane\":1,\"coll\":\"s\",")?;
    match number % 8 {
        0 | 4 => push_insert(text, number)?,
        1 => push_update(text, number)?,
        2 => push_delete(text, number)?,
        3 => push_find(text, number)?,
        5 => push_update_of_all(text, number)?,
        6 => push_delete_of_all(text, number)?,
        _ => push_find_and_modify(text, number)?,
    }
    text.push_str("}\n")
}

fn push_insert(text: &mut String, number: u32) -> Result<(), Memory> {
    write!(text, "\"op\":\"insert\",\"doc\":{{\"_id\":{number}}}")
}

fn push_update(text: &mut String, number: u32) -> Result<(), Memory> {
    write!(
        text,
        "\"op\":\"update\",\"filter\":{{\"_id\":{number}}},\"change\":{{\"$inc\":{{\"v\":1}}}}"
    )
}

fn push_delete(text: &mut String, number: u32) -> Result<(), Memory> {
    write!(text, "\"op\":\"delete\",\"filter\":{{\"_id\":{number}}}")
}

fn push_find(text: &mut String, number: u32) -> Result<(), Memory> {
    write!(text, "\"op\":\"find\",\"filter\":{{\"_id\":{number}}}")
}

fn push_update_of_all(text: &mut String, number: u32) -> Result<(), Memory> {
    write!(
        text,
        "\"op\":\"update\",\"filter\":{{\"v\":{number}}},\"change\":{{\"$inc\":{{\"v\":1}}}},\"multi\":true"
    )
}

fn push_delete_of_all(text: &mut String, number: u32) -> Result<(), Memory> {
    write!(
        text,
        "\"op\":\"delete\",\"filter\":{{\"v\":{number}}},\"limit\":0"
    )
}

fn push_find_and_modify(text: &mut String, number: u32) -> Result<(), Memory> {
    write!(
        text,
        "\"op\":\"findAndModify\",\"filter\":{{\"_id\":{number}}},\"remove\":true"
    )
}

/// Whether the command of that number may change data: all but the finds may.
pub fn is_write(number: u32) -> bool {
    number % 8 != 3
}
