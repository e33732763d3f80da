ghost use Rattle.std.specs.Prelude.{◌≡◌, ◌≢◌, ◌≤◌, ◌<◌, None, Some, IfOk, OnErr, length, slice_get, slice_set, vec_capacity};
ghost use Rattle.entry_judge.specs.Groups.{Goes};
ghost use Rattle.sess_book.specs.Entries.{Drew, Returned, sessions_judge};
ghost use Rattle.sess_book.specs.Ids.{id_of};
ghost use Rattle.sess_book.specs.Sessions.{no_sessions};
ghost use Rattle.sess_book.specs.declared.session.Holding.{Holding};
ghost use Rattle.sess_book.specs.declared.session.Holding.TheVariants as holding;
ghost use Rattle.sess_book.specs.Ending.{IsParted, kept_ids};
ghost use Rattle.sess_step.specs.Inside.{IsPlaced, IsPut};
ghost use Rattle.sess_step.specs.Takes.{IsHeldAt, Takes};

use crate::{Memory, Taken, Words};
use bson_doc::{Lsid, Rows};
use sess_book::{Lease, Leased, SessBook};
use std::alloc::Global;
use std::marker::Model;

/// The server sessions of a client, with the lease of each that is out (Driver Sessions, Server Session Pool). To contracts it is
/// the sessions of its book; a session is known by its place among all that were made.
#[derive(Drop)]
pub struct LeaseBook {
    book: SessBook,
    leases: Vec<Option<Lease>>,
}

impl Model for LeaseBook {
    ghost use Rattle.sess_book.specs.Sessions.{Sessions};
    ghost use Rattle.sess_step.specs.Inside.{IsKept, sessions_of};

    ghost Value = { Sessions };

    ghost view = { sessions_of };

    ghost invariant = { IsKept };
}

impl LeaseBook {
    /// A book without sessions; it takes no memory.
    pub fn new(alloc: Global) -> LeaseBook
        ensures { result ≡ no_sessions }
    {
        LeaseBook {
            book: SessBook::new(alloc),
            leases: Vec::new(alloc),
        }
    }

    /// The moment of the last lease or return, in microseconds; 0 at first.
    pub fn last(&self) -> u64
        ensures { result ≡ self.now.last }
    {
        self.book.last()
    }

    /// Leases a session at a moment, where servers end a session after `minutes` without use: the newest kept one where it has a
    /// minute left, else a new one with the id of the words.
    pub fn take(&mut self, moment: u64, minutes: i64, words: Words) -> Result<Taken, Memory>
        requires { self.old.last ≤ moment }
        ensures answer { IfOk result (λ taken. Takes self.old moment minutes (id_of words.first words.second) taken self.new) }
        ensures err { OnErr result (self.new ≡ self.old) }
    {
        self.leases.reserve(1)?;
        match self.book.take(moment, minutes, words.first, words.second)? {
            Leased::Lease(lease) => {
                let taken = taken_by(&lease);
                keep(&mut self.leases, lease);
                Ok(taken)
            }
            Leased::Repeated(lsid) => Ok(Taken::Repeated(lsid)),
        }
    }

    /// Draws the transaction number of the session at that place: one more than its last. A lease of it is out that has not drawn.
    pub fn draw(&mut self, place: usize) -> i64
        requires { IsHeldAt self.old place holding.Leased }
        ensures goes { Goes sessions_judge self.old self.old.last (Drew place result) self.new }
        ensures drawn { IsHeldAt self.new place holding.Drawn }
    {
        let Some(mut lease) = take_at(&mut self.leases, place) else {
            unreachable!()
        };
        let number = self.book.draw(&mut lease).number;
        put_at(&mut self.leases, place, lease);
        number
    }

    /// Takes the session at that place back at a moment, and answers whether it is kept: a dirty one is not (Driver Sessions, Dirty
    /// sessions), and one that has no number left is not (own). A lease of it is out.
    pub fn give_back(&mut self, place: usize, moment: u64, dirty: bool) -> bool
        requires late { self.old.last ≤ moment }
        requires held { (held : Holding) × (held ≢ holding.Nobody) × IsHeldAt self.old place held }
        ensures { Goes sessions_judge self.old moment (Returned place dirty result) self.new }
    {
        let Some(lease) = take_at(&mut self.leases, place) else {
            unreachable!()
        };
        self.book.give_back(lease, moment, dirty)
    }

    /// The ids of the kept sessions, for the endSessions commands that end them: in the order in which they were given back,
    /// in lists of 10,000 of which the last may have fewer (Driver Sessions, endSessions).
    pub fn ending(&self, alloc: Global) -> Result<Rows<Rows<Lsid>>, Memory>
        ensures { IfOk result (λ lists. IsParted lists (kept_ids self.now)) }
    {
        self.book.ending(alloc)
    }
}

/// The answer of a lease.
fn taken_by(lease: &Lease) -> Taken
    ensures { result ≡ Taken.Session lease.now.place lease.now.lsid lease.now.fresh }
{
    Taken::Session {
        place: lease.place(),
        lsid: lease.lsid(),
        fresh: lease.fresh(),
    }
}

/// Keeps a lease at its session's place, which is a new one where the session is.
fn keep(leases: &mut Vec<Option<Lease>>, lease: Lease)
    requires room { length leases.old.items < vec_capacity leases.old }
    requires placed { IsPlaced lease.fresh lease.place (length leases.old.items) }
    ensures put { IsPut lease lease.fresh leases.old.items leases.new.items }
{
    if lease.fresh() {
        leases.push_reserved(Some(lease));
    } else {
        let place = lease.place();
        leases[place] = Some(lease);
    }
}

/// Puts a lease in that place.
fn put_at(leases: &mut Vec<Option<Lease>>, place: usize, lease: Lease)
    requires { place < length leases.old.items }
    ensures { leases.new.items ≡ slice_set leases.old.items place (Some lease) }
{
    leases[place] = Some(lease);
}

/// Takes the lease out of its place.
fn take_at(leases: &mut Vec<Option<Lease>>, place: usize) -> Option<Lease>
    requires { place < length leases.old.items }
    ensures lease { slice_get leases.old.items place ≡ Some result }
    ensures left { leases.new.items ≡ slice_set leases.old.items place None }
{
    leases[place].take()
}
