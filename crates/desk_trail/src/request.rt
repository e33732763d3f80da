use bson_doc::Bytes;

/// A request that was queued: the stream, the request's id (requestID of the MongoDB wire protocol), what it is for, and all
/// of its bytes.
#[derive(Debug, Drop)]
pub struct Request {
    /// The stream on which it goes out.
    pub stream: u64,
    /// Its requestID; requests count from 1, and behind 2,147,483,647 from 1 again.
    pub id: i32,
    /// What it is for.
    pub purpose: Purpose,
    /// The bytes of its message.
    pub bytes: Bytes,
}

/// What a request is for.
#[derive(Clone, Copy, Debug, PartialEq, Eq, Drop)]
pub enum Purpose {
    /// The hello of a check of the server (Server Monitoring).
    Check { host: u32 },
    /// The hello that greets the server on a new connection of its pool (MongoDB Handshake).
    Greeting { host: u32, conn: u64 },
    /// A command's attempt.
    Command { op: u32 },
    /// The end of the client's sessions (Driver Sessions, endSessions).
    Farewell,
}
