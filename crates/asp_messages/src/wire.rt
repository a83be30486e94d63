//! Laws of the wire: what one end writes the other end reads, whatever follows it. The functions do
//! nothing; what they ensure holds of all bytes and messages.
ghost use Rattle.std.specs.Prelude.{◌≡◌, ◌<◌, ◌+◌, ℕ, List, ◌++◌, length, All};
ghost use Rattle.asp_messages.specs.declared.request.Message.{Message};
ghost use Rattle.asp_messages.specs.declared.request.Message.TheVariants.{Fit};
ghost use Rattle.asp_messages.specs.declared.request.Request.{Request};
ghost use Rattle.asp_messages.specs.declared.reply.Reply.{Reply};
ghost use Rattle.asp_messages.specs.Fields.{most_body, response_fields};
ghost use Rattle.asp_messages.specs.Head.{most_head, IsReplyHead};
ghost use Rattle.asp_messages.specs.Ranges.{RequestFits, ReplyFits};
ghost use Rattle.asp_messages.specs.ReplySpelling.{StreamAnswer, reply, SpellsReply};
ghost use Rattle.asp_messages.specs.ReplyText.{reply_text};
ghost use Rattle.asp_messages.specs.RequestSpelling.{SpellsRequest};
ghost use Rattle.asp_messages.specs.RequestText.{request_text};
ghost use Rattle.asp_messages.specs.Stream.{IsMessageStream, IsWaiting};

/// The canonical text of a request in range, whose key is bytes, is a spelling of that request, and
/// bytes that begin with it begin with no other message.
pub fn request_round_trip()
    ensures spelled { (r : Request) → RequestFits r → All (λ b. b < 256) r.key
        → SpellsRequest (request_text r) (Fit r) }
    ensures first { (r : Request) (more front back : List ℕ) (m : Message) → RequestFits r
        → All (λ b. b < 256) r.key → request_text r ++ more ≡ front ++ back → SpellsRequest front m
        → (m ≡ Fit r) × (back ≡ more) }
{}

/// The canonical text of a reply in range is a spelling of that reply, and bytes that begin with it
/// begin with no other message.
pub fn reply_round_trip()
    ensures spelled { (r : Reply) → ReplyFits r → SpellsReply (reply_text r) (reply r) }
    ensures first { (r : Reply) (more front back : List ℕ) (a : StreamAnswer) → ReplyFits r
        → reply_text r ++ more ≡ front ++ back → SpellsReply front a
        → (a ≡ reply r) × (back ≡ more) }
{}

/// A byte list is one stream of replies: it has one list of messages and one rest.
pub fn one_reply_stream()
    ensures { (bytes : List ℕ) (answers others : List StreamAnswer) (rest other : List ℕ)
        → IsMessageStream SpellsReply bytes answers rest
        → IsMessageStream SpellsReply bytes others other
        → (answers ≡ others) × (rest ≡ other) }
{}

/// What waits for more bytes of a reply is shorter than a head and a body together may be.
pub fn waiting_reply_is_short()
    ensures { (bytes : List ℕ) → IsWaiting IsReplyHead response_fields bytes
        → length bytes < most_head + most_body }
{}

/// What is spelled is in range.
pub fn spelled_is_in_range()
    ensures requests { (bytes : List ℕ) (r : Request) → SpellsRequest bytes (Fit r)
        → RequestFits r }
    ensures replies { (bytes : List ℕ) (r : Reply) → SpellsReply bytes (reply r) → ReplyFits r }
{}
