//! What a member answers to a hello (MongoDB Handshake; SDAM).
ghost use Rattle.std.specs.Prelude.{◌≡◌, ◌++◌, ◌<◌, length, map, IfOk, OnOk};
ghost use Rattle.host_name.specs.Addresses.{address_text};
ghost use Rattle.bson_doc.specs.declared.value.Value.TheVariants.{Str};
ghost use Rattle.member_core.specs.Replies.{election_fields, election_id as id_of_election, hello_reply, host_value, limit_fields, own_fields, own_text, primary_field, process_id as id_of_process, role_fields, set_fields, topology_version};

use crate::write_reply::put_ok;
use crate::{Member, Memory};
use bson_doc::{Document, Oid, Rows, Text, Value};
use host_name::Host;
use std::alloc::Global;

impl Member {
    /// The whole answer.
    pub(crate) fn hello(&self, alloc: Global) -> Result<Document, Memory>
        ensures { IfOk result (λ d. d ≡ hello_reply self.now) }
    {
        let mut hello = Document::new(alloc);
        self.put_role(alloc, &mut hello)?;
        self.put_set(alloc, &mut hello)?;
        self.put_own(alloc, &mut hello)?;
        put_election(alloc, &mut hello, self.election)?;
        put_limits(alloc, &mut hello)?;
        hello.put(alloc, "topologyVersion", Value::Doc(self.version(alloc)?))?;
        put_ok(alloc, &mut hello)?;
        Ok(hello)
    }

    /// Primary, or secondary.
    fn put_role(&self, alloc: Global, hello: &mut Document) -> Result<(), Memory>
        ensures { OnOk result (hello.new.elements ≡ hello.old.elements ++ role_fields self.now) }
    {
        let is_primary = self.takes_writes();
        hello.put(alloc, "isWritablePrimary", Value::Bool(is_primary))?;
        hello.put(alloc, "secondary", Value::Bool(!is_primary))?;
        Ok(())
    }

    /// The set's name and its hosts.
    fn put_set(&self, alloc: Global, hello: &mut Document) -> Result<(), Memory>
        ensures { OnOk result (hello.new.elements ≡ hello.old.elements ++ set_fields self.now) }
    {
        let set = self.set.copy(alloc)?;
        let hosts = host_values(alloc, self.hosts.as_slice())?;
        hello.put(alloc, "setName", Value::Str(set))?;
        hello.put(alloc, "setVersion", Value::Int32(1))?;
        hello.put(alloc, "hosts", Value::Array(hosts))?;
        Ok(())
    }

    /// Its own host; a primary names it as the primary too.
    fn put_own(&self, alloc: Global, hello: &mut Document) -> Result<(), Memory>
        ensures { OnOk result (hello.new.elements ≡ hello.old.elements ++ own_fields self.now) }
    {
        let own = self.own(alloc)?;
        hello.put(alloc, "me", Value::Str(own.copy(alloc)?))?;
        put_primary(alloc, hello, self.takes_writes(), own)
    }

    /// Its own host as it is displayed.
    fn own(&self, alloc: Global) -> Result<Text, Memory>
        ensures { IfOk result (λ text. text ≡ own_text self.now) }
    {
        display(alloc, &self.hosts.as_slice()[self.place as usize])
    }

    /// Its topology version (SDAM, Topology Version).
    fn version(&self, alloc: Global) -> Result<Document, Memory>
        ensures { IfOk result (λ d. d ≡ topology_version self.now) }
    {
        let mut version = Document::new(alloc);
        version.put(alloc, "processId", Value::Oid(process_id(self.place)))?;
        version.put(alloc, "counter", Value::Int64(i64::from(self.changes)))?;
        Ok(version)
    }
}

fn put_primary(
    alloc: Global,
    hello: &mut Document,
    is_primary: bool,
    own: Text,
) -> Result<(), Memory>
    ensures { OnOk result (hello.new.elements ≡ hello.old.elements ++ primary_field is_primary own) }
{
    if is_primary {
        hello.put(alloc, "primary", Value::Str(own))?;
    }
    Ok(())
}

fn put_election(alloc: Global, hello: &mut Document, election: Option<u64>) -> Result<(), Memory>
    ensures { OnOk result (hello.new.elements ≡ hello.old.elements ++ election_fields election) }
{
    if let Some(number) = election {
        hello.put(alloc, "electionId", Value::Oid(election_id(number)))?;
    }
    Ok(())
}

fn put_limits(alloc: Global, hello: &mut Document) -> Result<(), Memory>
    ensures { OnOk result (hello.new.elements ≡ hello.old.elements ++ limit_fields) }
{
    hello.put(alloc, "maxBsonObjectSize", Value::Int32(16_777_216))?;
    hello.put(alloc, "maxMessageSizeBytes", Value::Int32(48_000_000))?;
    hello.put(alloc, "maxWriteBatchSize", Value::Int32(100_000))?;
    hello.put(alloc, "minWireVersion", Value::Int32(0))?;
    hello.put(alloc, "maxWireVersion", Value::Int32(21))?;
    hello.put(alloc, "logicalSessionTimeoutMinutes", Value::Int32(30))?;
    Ok(())
}

/// The hosts as they are displayed.
fn host_values(alloc: Global, hosts: &[Host]) -> Result<Rows<Value>, Memory>
    ensures { IfOk result (λ items. items ≡ map host_value hosts.now) }
{
    let mut items = Rows::new(alloc);
    for host in hosts {
        items.push(Value::Str(display(alloc, host)?))?;
    }
    Ok(items)
}

fn display(alloc: Global, host: &Host) -> Result<Text, Memory>
    ensures { IfOk result (λ text. text ≡ address_text host.now) }
{
    Ok(Text::from_string(host.text(alloc)?))
}

/// The id of an election of that number.
fn election_id(number: u64) -> Oid
    ensures { result ≡ id_of_election number }
{
    let [a, b, c, d, e, f, g, h] = number.to_be_bytes();
    Oid([0x7f, 0xff, 0xff, 0xff, a, b, c, d, e, f, g, h])
}

/// The id of the process of the member at that place.
fn process_id(place: u32) -> Oid
    ensures { result ≡ id_of_process place }
{
    let [a, b, c, d] = place.to_be_bytes();
    Oid([0, 0, 0, 0, 0, 0, 0, 0, a, b, c, d])
}
