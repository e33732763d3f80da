//! The program `example_document`: a document is made, written as bytes of BSON, and read again.
//!
//! It shows three things. A call that allocates takes the allocator, and `?` hands want of memory on. What a call answers is
//! said by its contract: a `requires` is met at each call, an `ensures` is known behind it, and both are proved before
//! anything runs. And a function of your own may promise what follows, as `read_back` does.
#![tactic(auto)]

ghost use Rattle.std.specs.Prelude.{◌≡◌, IfOk};

use bson_doc::{BsonFault, Document, Memory, Text, Value};
use bson_wire::{decode, encode};
use std::alloc::Global;

fn main(rt: HostRuntime) -> anyhow::Result<()> {
    let alloc = rt.alloc();
    let ada = person(alloc)?;
    let bytes = encode(alloc, &ada)?;
    println!(rt; "{} bytes", bytes.len())?;

    let again = read_back(alloc, &ada)?;
    println!(rt; "read again: {}", again.same(&ada))?;
    if let Some(Value::Str(name)) = again.get("name") {
        println!(rt; "name: {}", name.as_str())?;
    }
    println!(rt;
        "a member that is not there: {}",
        again.get("age").is_none()
    )?;

    // Bytes that a peer sent may be anything. A refusal names the first fault from the left, with its place.
    let spoiled = [9, 0, 0, 0, 8, b'a', 0, 2, 0];
    match decode(alloc, &spoiled) {
        Ok(_) => println!(rt; "read")?,
        Err(BsonFault::Memory) => println!(rt; "no memory")?,
        Err(fault) => println!(rt; "refused: {fault}")?,
    }
    Ok(())
}

/// A person. A name of a member must have no zero byte, since BSON ends it by one: `put` requires that, and at a name that is
/// written here the check sees it.
fn person(alloc: Global) -> Result<Document, Memory> {
    let mut person = Document::new(alloc);
    person.put(alloc, "_id", Value::Int32(7))?;
    person.put(alloc, "name", Value::Str(Text::take(alloc, "Ada")?))?;
    person.put(alloc, "admitted", Value::Bool(true))?;
    Ok(person)
}

/// The document behind its way through bytes. That it is the same one needs no test: it follows from what `encode` and `decode`
/// promise, for every document.
fn read_back(alloc: Global, document: &Document) -> anyhow::Result<Document>
    ensures same { IfOk result (λ again. again ≡ document.now) }
{
    let bytes = encode(alloc, document)?;
    let (again, _length) = decode(alloc, bytes.as_slice())?;
    Ok(again)
}
