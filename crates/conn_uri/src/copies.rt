//! Equal lists and texts.
ghost use Rattle.std.specs.Prelude.{◌≡◌, IfOk};
ghost use Rattle.std.specs.Option.{option_copied};

use crate::Memory;
use bson_doc::{Rows, Text};
use host_name::Host;
use std::alloc::Global;

pub(crate) fn copy_text(alloc: Global, text: Option<&Text>) -> Result<Option<Text>, Memory>
    ensures { IfOk result (λ copy. copy ≡ option_copied text.entry) }
{
    match text {
        Some(text) => Ok(Some(text.copy(alloc)?)),
        None => Ok(None),
    }
}

pub(crate) fn copy_hosts(alloc: Global, hosts: &[Host]) -> Result<Rows<Host>, Memory>
    ensures { IfOk result (λ copies. copies ≡ hosts.now) }
{
    let mut copies = Rows::new(alloc);
    for host in hosts {
        copies.push(host.copy(alloc)?)?;
    }
    Ok(copies)
}

pub(crate) fn copy_texts(alloc: Global, texts: &[Text]) -> Result<Rows<Text>, Memory>
    ensures { IfOk result (λ copies. copies ≡ texts.now) }
{
    let mut copies = Rows::new(alloc);
    for text in texts {
        copies.push(text.copy(alloc)?)?;
    }
    Ok(copies)
}
