ghost use Rattle.std.specs.Prelude.{◌≡◌, ◌%◌, ◌≤◌, IfOk};
ghost use Rattle.script_text.specs.Bounds.{IsBounded};
ghost use Rattle.soak_plan.specs.Commands.{act_by, command_of, commands_of, id_of, set_of};

use bson_doc::{Document, Memory, Name, Rows, Value};
use cmd_build::{Act, Command};
use std::alloc::Global;

/// The script of a soak: so many commands, each on one document.
pub fn commands(alloc: Global, count: u32) -> Result<Rows<Command>, Memory>
    requires { count ≤ 100000 }
    ensures commands { IfOk result (λ cs. cs ≡ commands_of count) }
    ensures bounded { IfOk result (λ cs. IsBounded cs) }
{
    let mut commands = Rows::new(alloc);
    for number in 0..count {
        commands.push(command(alloc, number)?)?;
    }
    Ok(commands)
}

/// The command of that number.
fn command(alloc: Global, number: u32) -> Result<Command, Memory>
    requires { number ≤ 100000 }
    ensures { IfOk result (λ c. c ≡ command_of number) }
{
    Ok(Command {
        lane: 1,
        db: None,
        coll: Name::take(alloc, "s")?,
        act: act(alloc, number)?,
    })
}

/// What it does.
fn act(alloc: Global, number: u32) -> Result<Act, Memory>
    requires { number ≤ 100000 }
    ensures { IfOk result (λ a. a ≡ act_by (number % 4) number) }
{
    let id = id(alloc, number)?;
    match number % 4 {
        0 => Ok(Act::Insert { doc: id }),
        1 => Ok(Act::Update {
            filter: id,
            change: set(alloc, number)?,
            multi: false,
            upsert: false,
        }),
        2 => Ok(Act::Delete {
            filter: id,
            all: false,
        }),
        _ => Ok(Act::Find {
            filter: id,
            read: None,
        }),
    }
}

/// The document's id.
fn id(alloc: Global, number: u32) -> Result<Document, Memory>
    requires { number ≤ 100000 }
    ensures { IfOk result (λ d. d ≡ id_of number) }
{
    let mut id = Document::new(alloc);
    id.put(alloc, "_id", Value::Int32(number as i32))?;
    Ok(id)
}

/// The change of an update.
fn set(alloc: Global, number: u32) -> Result<Document, Memory>
    requires { number ≤ 100000 }
    ensures { IfOk result (λ d. d ≡ set_of number) }
{
    let mut value = Document::new(alloc);
    value.put(alloc, "v", Value::Int32(number as i32))?;
    let mut set = Document::new(alloc);
    set.put(alloc, "$set", Value::Doc(value))?;
    Ok(set)
}
