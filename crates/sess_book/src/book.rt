ghost use Rattle.std.specs.Prelude.{◌≡◌, ◌≢◌, ◌≤◌, true, false, IfOk, OnErr, Some};
ghost use Rattle.entry_judge.specs.Groups.{Goes};
ghost use Rattle.sess_book.specs.Answers.{Answers, IsOf, IsHeld};
ghost use Rattle.sess_book.specs.Ending.{IsParted, kept_ids};
ghost use Rattle.sess_book.specs.Entries.{Drew, Made, Reused, Returned, sessions_judge};
ghost use Rattle.sess_book.specs.Ids.{id_of};
ghost use Rattle.sess_book.specs.Sessions.{has_minute_left, newest, no_sessions};

use crate::ending::{ids_of, parted};
use crate::ids::fresh_id;
use crate::made::{draw_at, hold_at, keep_if};
use crate::rules::{has_minute_left as is_minute_left, is_kept};
use crate::{Holding, Kept, Lease, Leased, Memory, Pair, Session};
use bson_doc::{Lsid, Rows};
use std::alloc::Global;
use std::collections::BTreeSet;
use std::marker::Model;

/// The server sessions of a client (Driver Sessions, Server Session Pool). To contracts it is the list of all sessions that
/// were made, those that wait to be leased again, and the moment of the last lease or return.
#[derive(Drop)]
pub struct SessBook {
    made: Vec<Session>,
    kept: Vec<Kept>,
    used: BTreeSet<Lsid>,
    last: u64,
}

impl Model for SessBook {
    ghost use Rattle.sess_book.specs.Inside.{IsKept, sessions_of};
    ghost use Rattle.sess_book.specs.Sessions.{Sessions};

    ghost Value = { Sessions };

    ghost view = { sessions_of };

    ghost invariant = { IsKept };
}

impl SessBook {
    /// A book without sessions; it takes no memory.
    pub fn new(alloc: Global) -> SessBook
        ensures { result ≡ no_sessions }
    {
        SessBook {
            made: Vec::new(alloc),
            kept: Vec::new(alloc),
            used: BTreeSet::new(alloc),
            last: 0,
        }
    }

    /// The moment of the last lease or return, in microseconds; 0 at first.
    pub fn last(&self) -> u64
        ensures { result ≡ self.now.last }
    {
        self.last
    }

    /// Leases a session at a moment, in microseconds, that is not before [`SessBook::last`]. Servers end a session after
    /// `minutes` without use. The newest kept session is leased again where it has a minute left; else one is made, with the
    /// id of the two words, and kept ones are dropped, since they have less. Where that id was used before the answer is
    /// `Repeated`, and nothing changes. It makes the room that [`SessBook::give_back`] needs.
    pub fn take(&mut self, moment: u64, minutes: i64, w1: u64, w2: u64) -> Result<Leased, Memory>
        requires { self.old.last ≤ moment }
        ensures answer { IfOk result (λ leased. Answers self.old moment minutes (id_of w1 w2) leased self.new) }
        ensures err { OnErr result (self.new ≡ self.old) }
    {
        match self.kept.last().copied() {
            Some(kept) if is_minute_left(minutes, moment, kept) => {
                Ok(Leased::Lease(self.lease_again(moment, minutes)))
            }
            _ => self.lease_new(moment, minutes, fresh_id(w1, w2)),
        }
    }

    /// Leases the newest kept session again, which has a minute left.
    fn lease_again(&mut self, moment: u64, minutes: i64) -> Lease
        requires late { self.old.last ≤ moment }
        requires left { (k : Kept) × (newest self.old ≡ Some k) × (has_minute_left minutes moment k ≡ true) }
        ensures goes { Goes sessions_judge self.old moment (Reused result.place minutes) self.new }
        ensures one { IsOf result self.new }
        ensures fresh { result.fresh ≡ false }
    {
        let Some(kept) = self.kept.pop() else {
            unreachable!()
        };
        let lsid = hold_at(&mut self.made, kept.place, Holding::Leased);
        self.last = moment;
        Lease {
            place: kept.place,
            lsid,
            fresh: false,
        }
    }

    /// Makes a session with an id, unless one had it before. No kept session has a minute left.
    fn lease_new(&mut self, moment: u64, minutes: i64, lsid: Lsid) -> Result<Leased, Memory>
        requires late { self.old.last ≤ moment }
        requires left { (k : Kept) → newest self.old ≡ Some k → has_minute_left minutes moment k ≡ false }
        ensures answer { IfOk result (λ leased. Answers self.old moment minutes lsid leased self.new) }
        ensures err { OnErr result (self.new ≡ self.old) }
    {
        if self.used.contains(&lsid) {
            return Ok(Leased::Repeated(lsid));
        }
        self.kept.reserve(self.made.len() + 1)?;
        self.made.reserve(1)?;
        self.used.insert(lsid)?;
        let place = self.made.len();
        self.made.push_reserved(Session {
            lsid,
            number: 0,
            holding: Holding::Leased,
        });
        self.kept.clear();
        self.last = moment;
        Ok(Leased::Lease(Lease {
            place,
            lsid,
            fresh: true,
        }))
    }

    /// Whether a lease is one of this book's that is not given back, and whether it has drawn; `Nobody` where it is none.
    pub fn holding(&self, lease: &Lease) -> Holding
        ensures held { result ≢ Holding.Nobody → IsHeld self.now lease.now result }
        ensures exact { (holding : Holding) → IsHeld self.now lease.now holding → result ≡ holding }
    {
        match self.made.get(lease.place) {
            Some(session) if session.lsid == lease.lsid => session.holding,
            _ => Holding::Nobody,
        }
    }

    /// Draws the lease's transaction number: one more than its session's last. The lease is one of this book's, is not given
    /// back, and has not drawn.
    pub fn draw(&mut self, lease: &mut Lease) -> Pair
        requires { IsHeld self.old lease.old Holding.Leased }
        ensures goes { Goes sessions_judge self.old self.old.last (Drew lease.old.place result.number) self.new }
        ensures id { result.lsid ≡ lease.old.lsid }
        ensures lease { lease.new ≡ lease.old }
    {
        let number = draw_at(&mut self.made, lease.place);
        Pair {
            lsid: lease.lsid,
            number,
        }
    }

    /// Takes a session back at a moment that is not before [`SessBook::last`], and answers whether it is kept: a dirty one is
    /// not (Driver Sessions, Dirty sessions), and one that has no number left is not (own). It takes no memory. The lease is
    /// one of this book's, and is not given back.
    pub fn give_back(&mut self, lease: Lease, moment: u64, dirty: bool) -> bool
        requires late { self.old.last ≤ moment }
        requires held { (holding : Holding) × (holding ≢ Holding.Nobody) × IsHeld self.old lease holding }
        ensures { Goes sessions_judge self.old moment (Returned lease.place dirty result) self.new }
    {
        let place = lease.place;
        let kept = is_kept(dirty, self.made[place].number);
        hold_at(&mut self.made, place, Holding::Nobody);
        keep_if(kept, &mut self.kept, place, moment);
        self.last = moment;
        kept
    }

    /// The ids of the kept sessions, for the endSessions commands that end them: in the order in which they were given back,
    /// in lists of 10,000 of which the last may have fewer (Driver Sessions, endSessions).
    pub fn ending(&self, alloc: Global) -> Result<Rows<Rows<Lsid>>, Memory>
        ensures { IfOk result (λ lists. IsParted lists (kept_ids self.now)) }
    {
        let ids = ids_of(alloc, self.made.as_slice(), self.kept.as_slice())?;
        parted(alloc, ids.as_slice())
    }
}
