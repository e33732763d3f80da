ghost use Rattle.std.specs.Prelude.{◌≡◌, ◌≤◌, ◌<◌, ◌++◌, length, IfErr, IfOk, OnOk, codes};
ghost use Rattle.std.specs.Option.{option_copied};
ghost use Rattle.bson_doc.specs.Documents.{depth_of};
ghost use Rattle.bson_wire.specs.Limits.{most_bytes, most_levels};
ghost use Rattle.bson_wire.specs.Spelled.{spelled};
ghost use Rattle.bson_wire.specs.Spelling.{Spells};
ghost use Rattle.bson_wire.specs.Writes.{Writes};
ghost use Rattle.cmd_build.specs.Batches.{Stopped, WroteAll, extra_fields, front_fields};
ghost use Rattle.cmd_build.specs.Commands.{command_document, command_fields, concern_of, given, number_of, preference_of, session_of, time_of};
ghost use Rattle.cmd_build.specs.Sizes.{IsWithin, levels_of_time};

use crate::act_fields::put_act;
use crate::command::{Act, Command, is_write};
use crate::extras::Extras;
use crate::parts::{UUID, db_of};
use crate::preference::{preference_document, sent_mode, sent_tags};
use bson_doc::{ClusterTime, Lsid};
use bson_wire::{ElementWriter, EncodeFault};
use std::alloc::Global;

/// The bytes, and behind them the spelling of what the command sends, from a client of that database, with these extras and the greatest
/// cluster time that the client knows; a command that names a database of its own goes there.
///
/// No document is made: each part is written from the command where it is to stand. The bytes are not copied where room was reserved, as
/// many as [`measure`](crate::measure) says, which says too whether a server takes them.
///
/// # Errors
///
/// Memory is wanting, or a document of the command, the cluster time or the whole has more levels or bytes than a document may.
pub fn append(
    alloc: Global,
    bytes: Vec<u8>,
    command: &Command,
    db: &str,
    extras: &Extras<'_>,
    time: Option<&ClusterTime>,
) -> Result<Vec<u8>, EncodeFault>
    ensures spelled { IfOk result (λ all. all.items ≡ bytes.items ++ spelled (command_document command.now db.now extras.now (option_copied time.entry))) }
    ensures spells { IsWithin 90 command.now.act → levels_of_time (option_copied time.entry) ≤ 99 →
        OnOk result (Spells (spelled (command_document command.now db.now extras.now (option_copied time.entry))) (command_document command.now db.now extras.now (option_copied time.entry))) }

    // Each fault comes only where the document has it.
    ensures deep { IfErr result (λ e. e ≡ EncodeFault.Deep → most_levels < depth_of (command_document command.now db.now extras.now (option_copied time.entry))) }
    ensures long { IfErr result (λ e. e ≡ EncodeFault.Long → most_bytes < length (spelled (command_document command.now db.now extras.now (option_copied time.entry)))) }
{
    let mut writer = ElementWriter::new(alloc, bytes);
    put_command(alloc, &mut writer, command, db, extras, time)?;
    Ok(writer.into_bytes())
}

/// The whole document of a command.
fn put_command(
    alloc: Global,
    writer: &mut ElementWriter,
    command: &Command,
    db: &str,
    extras: &Extras<'_>,
    time: Option<&ClusterTime>,
) -> Result<(), EncodeFault>
    ensures wrote { OnOk result (WroteAll writer.old writer.new (command_document command.now db.now extras.now (option_copied time.entry))) }
    ensures stops { IfErr result (Stopped (command_fields command.now db.now extras.now (option_copied time.entry))) }
{
    let start = writer.begin()?;
    put_front(writer, command, db)?;
    put_extras(alloc, writer, &command.act, extras, time)?;
    writer.end(start)
}

/// What a command asks for, and the fields behind that which stand in every command of its kind.
fn put_front(writer: &mut ElementWriter, command: &Command, db: &str) -> Result<(), EncodeFault>
    ensures writes { OnOk result (Writes writer.old writer.new (front_fields command.now db.now)) }
    ensures stops { IfErr result (Stopped (front_fields command.now db.now)) }
{
    put_act(writer, command.coll.as_str(), &command.act)?;
    put_concern(writer, command)?;
    writer.text("apiVersion", "1")?;
    writer.text("$db", db_of(command, db))
}

/// The fields that stand where they are given.
fn put_extras(
    alloc: Global,
    writer: &mut ElementWriter,
    act: &Act,
    extras: &Extras<'_>,
    time: Option<&ClusterTime>,
) -> Result<(), EncodeFault>
    ensures writes { OnOk result (Writes writer.old writer.new (extra_fields act.now extras.now (option_copied time.entry))) }
    ensures stops { IfErr result (Stopped (extra_fields act.now extras.now (option_copied time.entry))) }
{
    put_preference(alloc, writer, act, extras)?;
    put_session(writer, extras.lsid)?;
    put_number(writer, extras.number)?;
    put_time(writer, time)
}

/// The write concern of a write.
fn put_concern(writer: &mut ElementWriter, command: &Command) -> Result<(), EncodeFault>
    ensures writes { OnOk result (Writes writer.old writer.new (given (codes "writeConcern") (concern_of command.now.act))) }
    ensures stops { IfErr result (Stopped (given (codes "writeConcern") (concern_of command.now.act))) }
{
    if !is_write(command) {
        return Ok(());
    }
    let concern = writer.begin_document("writeConcern")?;
    writer.text("w", "majority")?;
    writer.end(concern)
}

/// The read preference of a find.
fn put_preference(
    alloc: Global,
    writer: &mut ElementWriter,
    act: &Act,
    extras: &Extras<'_>,
) -> Result<(), EncodeFault>
    ensures writes { OnOk result (Writes writer.old writer.new (given (codes "$readPreference") (preference_of act.now extras.now))) }
    ensures stops { IfErr result (Stopped (given (codes "$readPreference") (preference_of act.now extras.now))) }
{
    match sent_mode(act, extras.mode) {
        Some(mode) => {
            let preference = preference_document(alloc, sent_tags(act, extras.read), mode)?;
            writer.document("$readPreference", &preference)
        }
        None => Ok(()),
    }
}

/// The session's id, where one is given.
fn put_session(writer: &mut ElementWriter, lsid: Option<Lsid>) -> Result<(), EncodeFault>
    ensures writes { OnOk result (Writes writer.old writer.new (given (codes "lsid") (session_of lsid))) }
    ensures stops { IfErr result (Stopped (given (codes "lsid") (session_of lsid))) }
{
    match lsid {
        Some(id) => {
            let session = writer.begin_document("lsid")?;
            writer.binary("id", UUID, &id.0)?;
            writer.end(session)
        }
        None => Ok(()),
    }
}

/// The transaction number, where one is given.
fn put_number(writer: &mut ElementWriter, number: Option<i64>) -> Result<(), EncodeFault>
    ensures writes { OnOk result (Writes writer.old writer.new (given (codes "txnNumber") (number_of number))) }
    ensures stops { IfErr result (Stopped (given (codes "txnNumber") (number_of number))) }
{
    match number {
        Some(number) => writer.int64("txnNumber", number),
        None => Ok(()),
    }
}

/// The cluster time, where one is known.
fn put_time(writer: &mut ElementWriter, time: Option<&ClusterTime>) -> Result<(), EncodeFault>
    ensures writes { OnOk result (Writes writer.old writer.new (given (codes "$clusterTime") (time_of (option_copied time.entry)))) }
    ensures stops { IfErr result (Stopped (given (codes "$clusterTime") (time_of (option_copied time.entry)))) }
{
    match time {
        Some(time) => writer.document("$clusterTime", &time.body),
        None => Ok(()),
    }
}
