//! How large a command is, by its parts: nothing is built to be measured.
ghost use Rattle.std.specs.Prelude.{◌≡◌, ◌+◌, [], ◌∷◌, length, map, codes, Err, None, IfErr, IfOk, IfSome, OnOk};
ghost use Rattle.std.specs.Option.{option_copied, option_map, option_or};
ghost use Rattle.bson_wire.specs.Spelled.{numbered, payload, spelled, spelled_elements};
ghost use Rattle.cmd_build.specs.Commands.{act_fields, command_document, concern_of, given, modification, number_of, preference_of, session_of, tag_field, tag_sets_field, tag_value, time_of};
ghost use Rattle.cmd_build.specs.Sizes.{Tells, excess, fault_of, first_over, documents_of, message_size as size_of_message, over as excess_over, told};

use crate::command::{Act, Command, is_write};
use crate::extras::{Extras, Sizes};
use crate::fault::BuildFault;
use crate::parts::db_of;
use crate::preference::{sent_mode, sent_tags};
use bson_doc::{ClusterTime, Document, Lsid};
use bson_wire::size;
use read_pref::{Tag, TagSet};

/// How many bytes a document has beside its elements (bsonspec 1.1, document): its total in front, and 00 behind.
const AROUND_ELEMENTS: u64 = 5;

/// How many bytes a binary has beside its own (bsonspec 1.1, binary): their number in front, and the subtype.
const AROUND_BINARY: u64 = 5;

/// How many bytes a message has beside its document: a header of sixteen, four of flags, the section's kind.
const AROUND_DOCUMENT: u64 = 21;

/// How many bytes the message of a command has, from a client of that database, with these extras and the greatest cluster time that the
/// client knows (MongoDB wire protocol, OP_MSG). Nothing is built to be measured.
///
/// `TooLarge` comes exactly where one of the command's documents has more bytes than `max_doc`, or else where the whole message has more
/// than `max_message`; it names the first. No other fault comes.
pub fn measure(
    command: &Command,
    db: &str,
    extras: &Extras<'_>,
    time: Option<&ClusterTime>,
    sizes: Sizes,
) -> Result<u64, BuildFault>
    ensures size { IfOk result (λ size. size ≡ size_of_message (command_document command.now db.now extras.now (option_copied time.entry))) }
    ensures fits { OnOk result (excess command.now db.now extras.now (option_copied time.entry) sizes ≡ None) }
    ensures large { IfSome (excess command.now db.now extras.now (option_copied time.entry) sizes) (λ e. result ≡ Err (BuildFault.TooLarge e.size e.most)) }
    ensures too_large { IfErr result (λ fault. Tells fault (excess command.now db.now extras.now (option_copied time.entry) sizes)) }
{
    let size = message_size(command, db, extras, time);
    match too_large(&command.act, size, sizes) {
        Some(fault) => Err(fault),
        None => Ok(size),
    }
}

/// What is too large of a command with that act, whose message has so many bytes: the first of its documents, or else its whole message.
fn too_large(act: &Act, size: u64, sizes: Sizes) -> Option<BuildFault>
    ensures { result ≡ option_map fault_of (option_or (first_over sizes.max_doc (documents_of act.now)) (excess_over sizes.max_message size)) }
{
    match document_over(sizes.max_doc, act) {
        Some(fault) => Some(fault),
        None => over(sizes.max_message, size),
    }
}

/// The first of an act's documents that is over the bound.
fn document_over(most: u32, act: &Act) -> Option<BuildFault>
    ensures { result ≡ option_map fault_of (first_over most (documents_of act.now)) }
{
    match act {
        Act::Insert { doc } => over(most, size(doc)),
        Act::Update { filter, change, .. } => either_over(most, filter, change),
        Act::Delete { filter, .. } => over(most, size(filter)),
        Act::FindAndModify {
            filter,
            change: Some(change),
        } => either_over(most, filter, change),
        Act::FindAndModify {
            filter,
            change: None,
        } => over(most, size(filter)),
        Act::Find { filter, .. } => over(most, size(filter)),
    }
}

/// The first of the two that is over the bound.
fn either_over(most: u32, filter: &Document, change: &Document) -> Option<BuildFault>
    ensures { result ≡ option_map fault_of (first_over most (filter.now ∷ change.now ∷ [])) }
{
    match over(most, size(filter)) {
        Some(fault) => Some(fault),
        None => over(most, size(change)),
    }
}

/// The fault of a size that is over its bound.
fn over(most: u32, size: u64) -> Option<BuildFault>
    ensures { result ≡ option_map fault_of (excess_over most size) }
{
    let most = u64::from(most);
    if size > most {
        Some(BuildFault::TooLarge { size, most })
    } else {
        None
    }
}

/// How many bytes the command's message has.
fn message_size(command: &Command, db: &str, extras: &Extras<'_>, time: Option<&ClusterTime>) -> u64
    ensures { result ≡ size_of_message (command_document command.now db.now extras.now (option_copied time.entry)) }
{
    size_of_act(command.coll.as_str(), &command.act)
        .saturating_add(size_of_concern(command))
        .saturating_add(size_of_text("apiVersion", "1"))
        .saturating_add(size_of_text("$db", db_of(command, db)))
        .saturating_add(size_of_preference(&command.act, extras))
        .saturating_add(size_of_session(extras.lsid))
        .saturating_add(size_of_number(extras.number))
        .saturating_add(size_of_time(time))
        .saturating_add(AROUND_ELEMENTS)
        .saturating_add(AROUND_DOCUMENT)
}

/// The fields of an act on a collection.
fn size_of_act(coll: &str, act: &Act) -> u64
    ensures { result ≡ told (length (spelled_elements (act_fields coll.now act.now))) }
{
    match act {
        Act::Insert { doc } => size_of_batch(coll, "insert", "documents", size(doc)),
        Act::Update { filter, change, .. } => {
            size_of_batch(coll, "update", "updates", size_of_update(filter, change))
        }
        Act::Delete { filter, .. } => {
            size_of_batch(coll, "delete", "deletes", size_of_delete(filter))
        }
        Act::FindAndModify { filter, change } => size_of_text("findAndModify", coll)
            .saturating_add(element("query", size(filter)))
            .saturating_add(size_of_modification(change)),
        Act::Find { filter, .. } => size_of_text("find", coll)
            .saturating_add(element("filter", size(filter)))
            .saturating_add(element("limit", 4))
            .saturating_add(element("singleBatch", 1)),
    }
}

/// The fields of a write command with one statement, or one document, of so many bytes.
fn size_of_batch(coll: &str, name: &str, list: &str, statement: u64) -> u64
    ensures { result ≡ told (length name.now + length coll.now + length list.now + statement + 27) }
{
    let items = element("0", statement).saturating_add(AROUND_ELEMENTS);
    size_of_text(name, coll)
        .saturating_add(element(list, items))
        .saturating_add(element("ordered", 1))
}

/// One update statement.
fn size_of_update(filter: &Document, change: &Document) -> u64
    ensures { result ≡ told (length (spelled filter.now) + length (spelled change.now) + 28) }
{
    element("q", size(filter))
        .saturating_add(element("u", size(change)))
        .saturating_add(element("multi", 1))
        .saturating_add(element("upsert", 1))
        .saturating_add(AROUND_ELEMENTS)
}

/// One delete statement.
fn size_of_delete(filter: &Document) -> u64
    ensures { result ≡ told (length (spelled filter.now) + 19) }
{
    element("q", size(filter))
        .saturating_add(element("limit", 4))
        .saturating_add(AROUND_ELEMENTS)
}

/// What a findAndModify does with the document.
fn size_of_modification(change: &Option<Document>) -> u64
    ensures { result ≡ told (length (spelled_elements (modification change.now ∷ []))) }
{
    match change {
        Some(change) => element("update", size(change)),
        None => element("remove", 1),
    }
}

/// The write concern of a write.
fn size_of_concern(command: &Command) -> u64
    ensures { result ≡ told (length (spelled_elements (given (codes "writeConcern") (concern_of command.now.act)))) }
{
    if is_write(command) {
        let inside = size_of_text("w", "majority").saturating_add(AROUND_ELEMENTS);
        element("writeConcern", inside)
    } else {
        0
    }
}

/// The read preference of a find.
fn size_of_preference(act: &Act, extras: &Extras<'_>) -> u64
    ensures { result ≡ told (length (spelled_elements (given (codes "$readPreference") (preference_of act.now extras.now)))) }
{
    match sent_mode(act, extras.mode) {
        Some(mode) => {
            let inside = size_of_text("mode", mode.name())
                .saturating_add(size_of_tag_sets(sent_tags(act, extras.read)))
                .saturating_add(AROUND_ELEMENTS);
            element("$readPreference", inside)
        }
        None => 0,
    }
}

/// The tag sets of a read preference.
fn size_of_tag_sets(sets: &[TagSet]) -> u64
    ensures { result ≡ told (length (spelled_elements (tag_sets_field sets.now))) }
{
    if sets.is_empty() {
        return 0;
    }
    element("tags", size_of_items(sets).saturating_add(AROUND_ELEMENTS))
}

/// The items of an array of tag sets, whose names are "0", "1" and so on.
fn size_of_items(sets: &[TagSet]) -> u64
    ensures { result ≡ told (length (numbered 0 (map payload (map tag_value sets.now)))) }
{
    let mut total: u64 = 0;
    let mut digits = itoa::Buffer::new();
    for (place, tags) in sets.iter().enumerate() {
        let inside = size_of_tags(tags.as_slice()).saturating_add(AROUND_ELEMENTS);
        total = total.saturating_add(element(digits.format(place), inside));
    }
    total
}

/// The tags of one set.
fn size_of_tags(tags: &[Tag]) -> u64
    ensures { result ≡ told (length (spelled_elements (map tag_field tags.now))) }
{
    let mut total: u64 = 0;
    for tag in tags {
        let name = tag.name.as_str();
        total = total.saturating_add(size_of_text(name, tag.value.as_str()));
    }
    total
}

/// The session's id.
fn size_of_session(lsid: Option<Lsid>) -> u64
    ensures { result ≡ told (length (spelled_elements (given (codes "lsid") (session_of lsid)))) }
{
    match lsid {
        Some(id) => {
            let inside = element("id", size_of_id(&id).saturating_add(AROUND_BINARY));
            element("lsid", inside.saturating_add(AROUND_ELEMENTS))
        }
        None => 0,
    }
}

/// The bytes of a session's id.
fn size_of_id(id: &Lsid) -> u64
    ensures { result ≡ length id.now.0 }
{
    let raw: &[u8] = &id.0;
    raw.len() as u64
}

/// The transaction number.
fn size_of_number(number: Option<i64>) -> u64
    ensures { result ≡ told (length (spelled_elements (given (codes "txnNumber") (number_of number)))) }
{
    match number {
        Some(_) => element("txnNumber", 8),
        None => 0,
    }
}

/// The cluster time.
fn size_of_time(time: Option<&ClusterTime>) -> u64
    ensures { result ≡ told (length (spelled_elements (given (codes "$clusterTime") (time_of (option_copied time.entry))))) }
{
    match time {
        Some(time) => element("$clusterTime", size(&time.body)),
        None => 0,
    }
}

/// An element of a text, which has five bytes beside its own: its length in front, and 00 behind.
fn size_of_text(name: &str, text: &str) -> u64
    ensures { result ≡ told (length name.now + length text.now + 7) }
{
    element(name, (text.len() as u64).saturating_add(5))
}

/// An element whose payload has so many bytes: its type byte stands in front, and 00 behind its name.
fn element(name: &str, payload: u64) -> u64
    ensures { result ≡ told (length name.now + payload + 2) }
{
    payload.saturating_add(name.len() as u64).saturating_add(2)
}
