//! What a visit keeps from request to request.
ghost use Rattle.std.specs.Prelude.{◌≡◌};
ghost use Rattle.message_framing.specs.ReaderState.{empty_reader};

use reply_reader::ReplyReader;
use std::alloc::Global;

/// The text of the request that is sent, and the reader of its answer.
#[derive(Drop)]
pub struct Client {
    pub text: Vec<u8>,
    pub reader: ReplyReader,
}

impl Client {
    /// A client that has sent nothing.
    pub fn new(alloc: Global) -> Client
        ensures { result.reader.bytes ≡ empty_reader }
    {
        Client {
            text: Vec::new(alloc),
            reader: ReplyReader::new(alloc),
        }
    }
}
