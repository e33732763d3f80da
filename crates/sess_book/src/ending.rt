//! The ids of the sessions that end with a client, in lists.
ghost use Rattle.std.specs.Prelude.{◌≡◌, ◌<◌, ◌≤◌, ◌∷◌, ◌++◌, [], All, IfOk, OnOk, filter_map, flat_map, length, option_to_list};
ghost use Rattle.sess_book.specs.Ending.{IsParted, MOST_IDS, id_at};

use crate::{Kept, Memory, Session};
use bson_doc::{Lsid, Rows};
use std::alloc::Global;
use std::mem::replace;

/// The most ids that one endSessions command names (Driver Sessions, endSessions).
const MOST: usize = 10_000;

/// The ids of the kept sessions, in the order in which they were given back.

pub(crate) fn ids_of(alloc: Global, made: &[Session], kept: &[Kept]) -> Result<Rows<Lsid>, Memory>
    ensures { IfOk result (λ ids. ids ≡ filter_map (id_at made.now) kept.now) }
{
    let mut ids = Rows::new(alloc);
    for k in kept {
        put_id(&mut ids, made, *k)?;
    }
    Ok(ids)
}

/// Appends the id of a kept session.
fn put_id(ids: &mut Rows<Lsid>, made: &[Session], kept: Kept) -> Result<(), Memory>
    ensures { OnOk result (ids.new ≡ ids.old ++ option_to_list (id_at made.now kept)) }
{
    match made.get(kept.place) {
        Some(session) => ids.push(session.lsid),
        None => Ok(()),
    }
}

/// The ids in lists of the most, of which the last may have fewer.
pub(crate) fn parted(alloc: Global, ids: &[Lsid]) -> Result<Rows<Rows<Lsid>>, Memory>
    ensures { IfOk result (λ lists. IsParted lists ids.now) }
{
    let mut lists = Rows::new(alloc);
    let mut last = Rows::new(alloc);
    for id in ids {
        put(alloc, &mut lists, &mut last, *id)?;
    }
    closed(lists, last)
}

/// The lists with the last one, where it has an id.
#[tactic(auto, using(crate::proofs::EndingLemmas::parted_closed, crate::proofs::EndingLemmas::parted_none))]
fn closed(lists: Rows<Rows<Lsid>>, last: Rows<Lsid>) -> Result<Rows<Rows<Lsid>>, Memory>
    requires full { All (λ l. length l ≡ MOST_IDS) lists }
    requires few { length last ≤ MOST_IDS }
    requires some { 0 < length lists → 0 < length last }
    ensures { IfOk result (λ all. IsParted all (flat_map (λ l. l) lists ++ last)) }
{
    if last.len() == 0 {
        return Ok(lists);
    }
    let mut all = lists;
    all.push(last)?;
    Ok(all)
}

/// Puts an id into the last list, or into a new one where the last is full.
fn put(
    alloc: Global,
    lists: &mut Rows<Rows<Lsid>>,
    last: &mut Rows<Lsid>,
    id: Lsid,
) -> Result<(), Memory>
    requires full { All (λ l. length l ≡ MOST_IDS) lists.old }
    requires few { length last.old ≤ MOST_IDS }
    ensures all { OnOk result (flat_map (λ l. l) lists.new ++ last.new ≡ (flat_map (λ l. l) lists.old ++ last.old) ++ id ∷ []) }
    ensures full { OnOk result (All (λ l. length l ≡ MOST_IDS) lists.new) }
    ensures few { OnOk result (length last.new ≤ MOST_IDS) }
    ensures some { OnOk result (0 < length last.new) }
{
    if last.len() == MOST {
        lists.push(replace(last, Rows::new(alloc)))?;
    }
    last.push(id)
}
