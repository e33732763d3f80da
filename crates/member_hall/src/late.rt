use msg_wire::Message;

/// A request that will be handled later: at the start of the turn `due`.
#[derive(Debug, Drop)]
pub struct LateRequest {
    pub due: u64,
    pub message: Message,
}
