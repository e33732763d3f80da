ghost use Rattle.std.specs.Prelude.{◌≡◌, IfOk};
ghost use Rattle.std.specs.Option.{option_copied};

use crate::{Memory, ServerDescription, Tag};
use bson_doc::{Rows, Text};
use host_name::Host;
use std::alloc::Global;

impl ServerDescription {
    /// An equal description.
    pub fn copy(&self, alloc: Global) -> Result<ServerDescription, Memory>
        ensures { IfOk result (λ d. d ≡ self.now) }
    {
        Ok(ServerDescription {
            host: self.host.copy(alloc)?,
            kind: self.kind,
            set_name: copy_text(alloc, self.set_name.as_ref())?,
            set_version: self.set_version,
            election: self.election,
            primary: copy_host(alloc, self.primary.as_ref())?,
            me: copy_host(alloc, self.me.as_ref())?,
            listed: copy_hosts(alloc, self.listed.as_slice())?,
            tags: copy_tags(alloc, self.tags.as_slice())?,
            min_wire: self.min_wire,
            max_wire: self.max_wire,
            session_minutes: self.session_minutes,
            version: self.version,
            max_doc: self.max_doc,
            max_message: self.max_message,
            max_batch: self.max_batch,
            mean: self.mean,
        })
    }
}

impl Tag {
    /// An equal tag.
    pub fn copy(&self, alloc: Global) -> Result<Tag, Memory>
        ensures { IfOk result (λ t. t ≡ self.now) }
    {
        let name = self.name.copy(alloc)?;
        let value = self.value.copy(alloc)?;
        Ok(Tag { name, value })
    }
}

fn copy_text(alloc: Global, text: Option<&Text>) -> Result<Option<Text>, Memory>
    ensures { IfOk result (λ copy. copy ≡ option_copied text.entry) }
{
    match text {
        Some(text) => Ok(Some(text.copy(alloc)?)),
        None => Ok(None),
    }
}

fn copy_host(alloc: Global, host: Option<&Host>) -> Result<Option<Host>, Memory>
    ensures { IfOk result (λ copy. copy ≡ option_copied host.entry) }
{
    match host {
        Some(host) => Ok(Some(host.copy(alloc)?)),
        None => Ok(None),
    }
}

fn copy_hosts(alloc: Global, hosts: &[Host]) -> Result<Rows<Host>, Memory>
    ensures { IfOk result (λ copies. copies ≡ hosts.now) }
{
    let mut copies = Rows::new(alloc);
    for host in hosts {
        copies.push(host.copy(alloc)?)?;
    }
    Ok(copies)
}

fn copy_tags(alloc: Global, tags: &[Tag]) -> Result<Rows<Tag>, Memory>
    ensures { IfOk result (λ copies. copies ≡ tags.now) }
{
    let mut copies = Rows::new(alloc);
    for tag in tags {
        copies.push(tag.copy(alloc)?)?;
    }
    Ok(copies)
}
