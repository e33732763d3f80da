//! Calls that may be made of some books alone.
use crate::sessions::state::Told;
use bson_doc::{ClusterTime, Document, Value};
use case_files::CaseFault;
use sess_book::{Holding, Lease, Leased, SessBook};
use std::alloc::Global;
use std::mem;

/// Leases a session, which gets the next number.
pub fn take(
    book: &mut SessBook,
    leases: &mut Vec<Option<Lease>>,
    moment: u64,
    minutes: i64,
    w1: u64,
    w2: u64,
) -> Result<Told, CaseFault> {
    if moment < book.last() {
        return Err(CaseFault::Refused("the moment falls"));
    }
    match book.take(moment, minutes, w1, w2)? {
        Leased::Lease(lease) => {
            let number = leases.len();
            let told = if lease.fresh() {
                Told::Fresh(number, lease.lsid())
            } else {
                Told::Again(number, lease.lsid())
            };
            leases.push(Some(lease))?;
            Ok(told)
        }
        Leased::Repeated(lsid) => Ok(Told::Repeated(lsid)),
    }
}

/// Takes the lease of that number out, which must be there.
fn taken(leases: &mut Vec<Option<Lease>>, number: usize) -> Result<Lease, CaseFault> {
    match leases.get_mut(number) {
        Some(slot) => mem::replace(slot, None).ok_or(CaseFault::Refused(
            "the lease was given back",
        )),
        None => Err(CaseFault::Refused("no such lease")),
    }
}

/// Puts the lease back in its place.
fn put_back(leases: &mut Vec<Option<Lease>>, number: usize, lease: Lease) {
    if let Some(slot) = leases.get_mut(number) {
        *slot = Some(lease);
    }
}

/// Draws a transaction number.
pub fn draw(
    book: &mut SessBook,
    leases: &mut Vec<Option<Lease>>,
    number: usize,
) -> Result<Told, CaseFault> {
    let mut lease = taken(leases, number)?;
    if book.holding(&lease) != Holding::Leased {
        put_back(leases, number, lease);
        return Err(CaseFault::Refused("the lease has drawn"));
    }
    let pair = book.draw(&mut lease);
    put_back(leases, number, lease);
    Ok(Told::Drew(pair))
}

/// Gives a session back.
pub fn give_back(
    book: &mut SessBook,
    leases: &mut Vec<Option<Lease>>,
    number: usize,
    moment: u64,
    dirty: bool,
) -> Result<Told, CaseFault> {
    let lease = taken(leases, number)?;
    if moment < book.last() {
        put_back(leases, number, lease);
        return Err(CaseFault::Refused("the moment falls"));
    }
    if book.holding(&lease) == Holding::Nobody {
        return Err(CaseFault::Refused("the lease is of another book"));
    }
    if book.give_back(lease, moment, dirty) {
        Ok(Told::Kept)
    } else {
        Ok(Told::Dropped)
    }
}

/// Takes so many sessions, and gives all back.
pub fn many(
    alloc: Global,
    book: &mut SessBook,
    count: u64,
    moment: u64,
) -> Result<Told, CaseFault> {
    let mut leases = Vec::new(alloc);
    for word in 0..count {
        take(book, &mut leases, moment, 30, word, word)?;
    }
    for number in 0..leases.len() {
        give_back(book, &mut leases, number, moment, false)?;
    }
    Ok(Told::Done)
}

/// A cluster time with a mark in its body.
pub fn cluster_time(alloc: Global, stamp: u64, mark: i64) -> Result<ClusterTime, CaseFault> {
    let mut body = Document::new(alloc);
    body.put(alloc, "mark", Value::Int64(mark))?;
    Ok(ClusterTime { stamp, body })
}
