ghost use Rattle.std.specs.Prelude.{◌≡◌, ◌++◌, map, IfOk, OnOk};
ghost use Rattle.cmd_build.specs.Handshakes.{admin_fields, client as client_document, driver as driver_document, ended_session, farewell_document, hello_document, system as system_document};

use crate::Memory;
use crate::parts::{session, text};
use bson_doc::{Document, Lsid, Rows, Value};
use std::alloc::Global;

/// What a check or a greeting sends (MongoDB Handshake): hello, and the client's own description where it is the `first` on
/// its connection.
pub fn hello(alloc: Global, first: bool) -> Result<Document, Memory>
    ensures document { IfOk result (λ d. d ≡ hello_document first) }
{
    let mut hello = Document::new(alloc);
    hello.put(alloc, "hello", Value::Int32(1))?;
    if first {
        hello.put(alloc, "client", Value::Doc(client(alloc)?))?;
    }
    put_admin(alloc, &mut hello)?;
    Ok(hello)
}

/// What ends sessions (Driver Sessions, endSessions): the sessions of these ids, in order.
pub fn farewell(alloc: Global, ids: &Rows<Lsid>) -> Result<Document, Memory>
    ensures document { IfOk result (λ d. d ≡ farewell_document ids.now) }
{
    let mut farewell = Document::new(alloc);
    let sessions = sessions(alloc, ids.as_slice())?;
    farewell.put(alloc, "endSessions", Value::Array(sessions))?;
    put_admin(alloc, &mut farewell)?;
    Ok(farewell)
}

/// The fields behind those of a command on no collection.
fn put_admin(alloc: Global, command: &mut Document) -> Result<(), Memory>
    ensures { OnOk result (command.new.elements ≡ command.old.elements ++ admin_fields) }
{
    command.put(alloc, "apiVersion", text(alloc, "1")?)?;
    command.put(alloc, "$db", text(alloc, "admin")?)?;
    Ok(())
}

/// Who is asking.
fn client(alloc: Global) -> Result<Document, Memory>
    ensures { IfOk result (λ d. d ≡ client_document) }
{
    let mut client = Document::new(alloc);
    client.put(alloc, "driver", Value::Doc(driver(alloc)?))?;
    client.put(alloc, "os", Value::Doc(system(alloc)?))?;
    Ok(client)
}

/// The driver's name and version.
fn driver(alloc: Global) -> Result<Document, Memory>
    ensures { IfOk result (λ d. d ≡ driver_document) }
{
    let mut driver = Document::new(alloc);
    driver.put(alloc, "name", text(alloc, "mdc")?)?;
    driver.put(alloc, "version", text(alloc, "1")?)?;
    Ok(driver)
}

/// The system that it runs on.
fn system(alloc: Global) -> Result<Document, Memory>
    ensures { IfOk result (λ d. d ≡ system_document) }
{
    let mut system = Document::new(alloc);
    system.put(alloc, "type", text(alloc, "Linux")?)?;
    Ok(system)
}

/// Sessions that end.
fn sessions(alloc: Global, ids: &[Lsid]) -> Result<Rows<Value>, Memory>
    ensures { IfOk result (λ items. items ≡ map ended_session ids.now) }
{
    let mut items = Rows::new(alloc);
    for id in ids {
        items.push(Value::Doc(session(alloc, *id)?))?;
    }
    Ok(items)
}
