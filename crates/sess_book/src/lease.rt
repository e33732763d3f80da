ghost use Rattle.std.specs.Prelude.{◌≡◌};

use bson_doc::Lsid;

/// A session that one command holds (Driver Sessions, implicit sessions). It goes back by `SessBook::give_back`.
#[derive(Debug, Drop)]
pub struct Lease {
    /// The session's place among all that the book made.
    pub(crate) place: usize,
    pub(crate) lsid: Lsid,
    pub(crate) fresh: bool,
}

impl Lease {
    /// The session's id.
    pub fn lsid(&self) -> Lsid
        ensures { result ≡ self.now.lsid }
    {
        self.lsid
    }

    /// The session's place among all that the book made, in the order in which it made them.
    pub fn place(&self) -> usize
        ensures { result ≡ self.now.place }
    {
        self.place
    }

    /// Whether the session was made for this lease.
    pub fn fresh(&self) -> bool
        ensures { result ≡ self.now.fresh }
    {
        self.fresh
    }
}

/// What `SessBook::take` answers.
#[derive(Debug, Drop)]
pub enum Leased {
    /// A lease.
    Lease(Lease),
    /// No kept session has a minute left, and a session had the id of the words before: draw other words.
    Repeated(Lsid),
}

/// A session id and a transaction number, which together stand for one write (Retryable Writes, txnNumber).
#[derive(Clone, Copy, Debug, PartialEq, Eq, Drop)]
pub struct Pair {
    /// The session's id.
    pub lsid: Lsid,
    /// The transaction number, from 1 on.
    pub number: i64,
}
