use bson_doc::Lsid;

/// A server session (Driver Sessions, ServerSession).
#[derive(Clone, Copy, Debug, PartialEq, Eq, Drop)]
pub struct Session {
    /// Its id.
    pub lsid: Lsid,
    /// The transaction number that was drawn last, 0 where none was.
    pub number: i64,
    /// Who holds it.
    pub holding: Holding,
}

/// Who holds a session.
#[derive(Clone, Copy, Debug, PartialEq, Eq, Drop)]
pub enum Holding {
    /// Nobody: it was given back.
    Nobody,
    /// A lease that has drawn no transaction number.
    Leased,
    /// A lease that has drawn its transaction number.
    Drawn,
}

/// A session that waits to be leased again.
#[derive(Clone, Copy, Debug, PartialEq, Eq, Drop)]
pub struct Kept {
    /// Its place among all sessions that were made.
    pub place: usize,
    /// When it was given back, in microseconds.
    pub last_use: u64,
}
