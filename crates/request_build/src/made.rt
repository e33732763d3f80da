use bson_doc::Bytes;
use desk_trail::Request;

/// A request, and its bytes once more, for its stream.
#[derive(Drop)]
pub struct MadeRequest {
    /// The request.
    pub request: Request,
    /// Its bytes.
    pub bytes: Bytes,
}
