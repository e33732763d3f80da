use bson_doc::Lsid;

/// Two random words, of which the id of a new session is made (Driver Sessions, Generating a Session ID locally).
#[derive(Clone, Copy, Debug, Drop)]
pub struct Words {
    /// Its first eight bytes, the highest first.
    pub first: u64,
    /// Its last eight bytes, the highest first.
    pub second: u64,
}

/// What `LeaseBook::take` answers.
#[derive(Clone, Copy, Debug, Drop)]
pub enum Taken {
    /// The session at that place is leased, which has that id; `fresh` where it was made for this lease.
    Session {
        /// Its place among all that were made.
        place: usize,
        /// Its id.
        lsid: Lsid,
        /// Whether it was made.
        fresh: bool,
    },
    /// No kept session has a minute left, and a session had the id of the words before: draw other words.
    Repeated(Lsid),
}
