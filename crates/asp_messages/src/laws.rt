//! Laws of the definitions, which everything above rests on. The functions do nothing; what they
//! ensure holds of all bytes and messages.
ghost use Rattle.std.specs.Prelude.{◌≡◌, ◌<◌, ◌+◌, ℕ, List, length};
ghost use Rattle.asp_messages.specs.declared.request.Message.{Message};
ghost use Rattle.asp_messages.specs.Fields.{most_body, request_fields};
ghost use Rattle.asp_messages.specs.Head.{most_head, IsRequestHead};
ghost use Rattle.asp_messages.specs.RequestSpelling.{SpellsRequest};
ghost use Rattle.asp_messages.specs.Stream.{IsMessageStream, IsWaiting};

/// A byte list is one stream of requests: it has one list of messages and one rest.
pub fn one_stream()
    ensures { (bytes : List ℕ) (ms ns : List Message) (rest other : List ℕ)
        → IsMessageStream SpellsRequest bytes ms rest → IsMessageStream SpellsRequest bytes ns other
        → (ms ≡ ns) × (rest ≡ other) }
{}

/// What waits for more bytes is shorter than a head and a body together may be.
pub fn waiting_is_short()
    ensures { (bytes : List ℕ) → IsWaiting IsRequestHead request_fields bytes
        → length bytes < most_head + most_body }
{}
