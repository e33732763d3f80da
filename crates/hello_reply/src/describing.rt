ghost use Rattle.std.specs.Prelude.{◌≡◌, ◌≢◌, Err, IfOk};
ghost use Rattle.std.specs.List.{IsDistinct};
ghost use Rattle.host_name.specs.Addresses.{is_same_address};
ghost use Rattle.hello_reply.specs.Descriptions.{describes, described as description_of};
ghost use Rattle.hello_reply.specs.Listed.{listed as listed_hosts};
ghost use Rattle.hello_reply.specs.declared.fault.ReplyFault.{ReplyFault};

use crate::defaults::{DEFAULT_BATCH, DEFAULT_DOC, DEFAULT_MESSAGE, DEFAULT_WIRE};
use crate::kinds::{is_ok, kind_of};
use crate::listed::listed;
use crate::{FieldName, Memory, ReplyFault, ServerDescription, default_unknown, fields};
use bson_doc::{Document, Rows};
use host_name::Host;
use std::alloc::Global;

/// The description of the server that answered `hello` with this reply, or the first fault of the reply.
///
/// A reply whose `ok` is not one describes an Unknown server, and nothing else of it is read. Each field is sought by its
/// name, of several of one name the first counts, and Null says as much as no field. Faults are sought in the order of
/// [`FieldName`]; `Many` comes only where no field is at fault. No host is listed twice.
pub fn describe(
    alloc: Global,
    reply: &Document,
    host: &Host,
) -> Result<ServerDescription, ReplyFault>
    ensures told { result ≢ Err ReplyFault.Memory → result ≡ describes reply.now.elements host.now }
    ensures differ { IfOk result (λ d. IsDistinct is_same_address d.listed) }
{
    if !is_ok(reply) {
        return Ok(default_unknown(alloc, host)?);
    }
    if let Some(field) = fields::first_fault(alloc, reply)? {
        return Err(ReplyFault::Field(field));
    }
    let listed = listed(alloc, reply)?;
    Ok(described(alloc, reply, host, listed)?)
}

/// What a reply says of its server that lists these hosts, without a look at faults.
fn described(
    alloc: Global,
    reply: &Document,
    host: &Host,
    listed: Rows<Host>,
) -> Result<ServerDescription, Memory>
    requires { listed ≡ listed_hosts reply.now.elements }
    ensures { IfOk result (λ d. d ≡ description_of reply.now.elements host.now) }
{
    Ok(ServerDescription {
        host: host.copy(alloc)?,
        kind: kind_of(reply),
        set_name: fields::text(alloc, reply, FieldName::SetName)?,
        set_version: fields::whole(reply, FieldName::SetVersion),
        election: fields::oid(reply, FieldName::ElectionId),
        primary: fields::host(alloc, reply, FieldName::Primary)?,
        me: fields::host(alloc, reply, FieldName::Me)?,
        listed,
        tags: fields::tags(alloc, reply, FieldName::Tags)?,
        min_wire: fields::short(reply, FieldName::MinWireVersion).unwrap_or(DEFAULT_WIRE),
        max_wire: fields::short(reply, FieldName::MaxWireVersion).unwrap_or(DEFAULT_WIRE),
        session_minutes: fields::whole(reply, FieldName::LogicalSessionTimeoutMinutes),
        version: fields::version(reply, FieldName::TopologyVersion),
        max_doc: fields::size(reply, FieldName::MaxBsonObjectSize).unwrap_or(DEFAULT_DOC),
        max_message: fields::size(reply, FieldName::MaxMessageSizeBytes).unwrap_or(DEFAULT_MESSAGE),
        max_batch: fields::size(reply, FieldName::MaxWriteBatchSize).unwrap_or(DEFAULT_BATCH),
        mean: None,
    })
}
