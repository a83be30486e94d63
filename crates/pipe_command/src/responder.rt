//! One connection's requests, each answered, and its reply or its journal's line given, before the
//! next is taken.
ghost use Rattle.std.specs.Prelude.{◌≡◌, ◌⊎◌, ◌≤◌, ◌++◌, [], ◌^◌, OnOk, OnErr, IsTrue, ⊤};
ghost use Rattle.asp_messages.specs.Ranges.{RequestFits, ReplyFits};
ghost use Rattle.plain_desk.specs.Openings.{HasFreshCookies, cookies_of, opening_over};
ghost use Rattle.session_machine.specs.History.{DrawFits, HasPlace};
ghost use Rattle.stream_core.specs.Whole.{IfFit};
ghost use Rattle.pipe_command.specs.declared.pipe.Output.TheVariants as outputs;
ghost use Rattle.pipe_command.specs.Giving.{given_body, given_head};
ghost use Rattle.pipe_command.specs.PlainRun.{closing, output_of};
ghost use Rattle.pipe_command.specs.Responding.{ResponderAnswers, Keeps, LeavesAnswered, PipeWent, given, start_with};
ghost use Rattle.pipe_command.specs.PipeRun.{PipeFits};

use crate::pipe::{Output, Pipe, PipeVerdict};
use asp_base::{NoMemory, StepClock};
use asp_messages::{Message, Reply, ReplyHead, Request, reply_body, reply_head};
use command_loop::{Consumer, Stepped};
use cookie_source::PlainCookies;
use journal_text::write_entry;
use keeper::Keeper;
use plain_desk::PlainDesk;
use session_machine::{Deed, Entry, Profile};
use std::alloc::Global;
use stream_core::{Next, Stream};

/// The first line of a journal from place 0.
const FIRST_LINE: &[u8] = b"asp-journal 3 0\n";

/// How a message was answered.
#[derive(Debug, Drop)]
pub struct Response {
    /// Its moment, in milliseconds.
    pub moment: u64,
    /// The cookie that was drawn for it, 0 where none was.
    pub drawn: u64,
    /// The reply.
    pub reply: Reply,
}

/// What was given last.
#[derive(Debug, Drop)]
pub enum Given {
    /// Nothing.
    Nothing,
    /// The first line of a journal.
    FirstLine,
    /// A reply, with its head.
    Reply(ReplyHead, Reply),
    /// The line of an entry.
    Line,
}

/// One connection's stream, the items with the cookies that are left, and the clock.
#[derive(Drop)]
pub struct Responder<K> {
    /// The memory for a journal's lines.
    pub alloc: Global,
    /// What the run was told.
    pub pipe: Pipe,
    /// Whether the first line of a journal was given; true where replies are written.
    pub is_begun: bool,
    /// The bytes that were read and not taken yet.
    pub stream: Stream,
    /// The items, and the cookies that are left.
    pub desk: PlainDesk<K>,
    /// The moments of the messages to come.
    pub clock: StepClock,
    /// What was given last.
    pub given: Given,
    /// The line of the last entry.
    pub line: Vec<u8>,
}

impl<K: Keeper> Responder<K> {
    /// Nothing was read; acquires draw these cookies, and with `None` they find none. It takes no
    /// memory.
    pub fn new(alloc: Global, pipe: Pipe, keeper: K, cookies: Option<PlainCookies>) -> Responder<K>
        requires pipe { PipeFits pipe }
        requires fresh { HasFreshCookies (opening_over ⟦<K as Keeper>⟧ keeper (cookies_of cookies)) }
        ensures begun { PipeWent ⟦<K as Keeper>⟧ result result [] [] }
        ensures start { start_with ⟦<K as Keeper>⟧ result ≡ record {
          pipe = pipe;
          opening = opening_over ⟦<K as Keeper>⟧ keeper (cookies_of cookies);
        } }
        ensures keeper { result.desk.keeper ≡ keeper }
    {
        Responder {
            alloc,
            pipe,
            is_begun: !pipe.journal,
            stream: Stream::new(alloc),
            desk: PlainDesk::over(alloc, keeper, cookies),
            clock: StepClock::new(pipe.start, pipe.step),
            given: Given::Nothing,
            line: Vec::new(alloc),
        }
    }

    /// Answers a message at the clock's next moment. One that is no request draws no cookie.
    fn act(&mut self, message: Message) -> Response
        requires message { IfFit message RequestFits }
        ensures answers { ResponderAnswers ⟦<K as Keeper>⟧ message self.old self.new result }
        ensures fits { ReplyFits result.reply }
        ensures moment { result.moment ≤ 2 ^ 62 }
        ensures place { IfFit message (λ r. HasPlace result.reply) }
        ensures drawn { IfFit message (λ r. DrawFits r.ask result.drawn) }
        ensures stream { self.new.stream ≡ self.old.stream }
        ensures keeps { Keeps ⟦<K as Keeper>⟧ self.old self.new }
    {
        let moment = self.clock.tick();
        match message {
            Message::Fit(request) => {
                let acted = self.desk.act(request, moment);
                Response {
                    moment,
                    drawn: acted.drawn,
                    reply: acted.reply,
                }
            }
            Message::Unfit => Response {
                moment,
                drawn: 0,
                reply: Reply::Bad,
            },
        }
    }

    /// Answers the message that was taken last, and gives the reply.
    fn reply(&mut self, message: Message)
        requires message { IfFit message RequestFits }
        ensures answered { LeavesAnswered ⟦<K as Keeper>⟧ outputs.Replies
            (λ owed. given self.new ≡ owed) message self.old self.new }
        ensures keeps { Keeps ⟦<K as Keeper>⟧ self.old self.new }
    {
        let answer = self.act(message);
        let head = self.stream.answer(&answer.reply);
        self.given = Given::Reply(head, answer.reply);
    }

    /// Answers a request, and gives its entry's line.
    fn note_request(&mut self, request: Request) -> Result<(), NoMemory>
        requires request { RequestFits request }
        ensures noted { OnOk result (LeavesAnswered ⟦<K as Keeper>⟧ outputs.Journal
            (λ owed. given self.new ≡ owed) (Message.Fit request) self.old self.new) }
        ensures no_memory { OnErr result ((self.new ≡ self.old)
            ⊎ LeavesAnswered ⟦<K as Keeper>⟧ outputs.Journal (λ owed. ⊤) (Message.Fit request)
            self.old self.new) }
        ensures keeps { Keeps ⟦<K as Keeper>⟧ self.old self.new }
    {
        let asked = request.copy(self.alloc)?;
        let answer = self.act(Message::Fit(request));
        let entry = Entry {
            caller: 0,
            moment: answer.moment,
            deed: Deed::Asked(asked),
            drawn: answer.drawn,
            reply: answer.reply,
            faults: self.desk.faults(),
        };
        self.line.clear();
        write_entry(&mut self.line, Profile::Three, &entry)?;
        self.given = Given::Line;
        Ok(())
    }

    /// Answers the message that was taken last, and gives its entry's line. A message that is no
    /// request has a moment and no line.
    fn note(&mut self, message: Message) -> Result<(), NoMemory>
        requires message { IfFit message RequestFits }
        ensures noted { OnOk result (LeavesAnswered ⟦<K as Keeper>⟧ outputs.Journal
            (λ owed. given self.new ≡ owed) message self.old self.new) }
        ensures no_memory { OnErr result ((self.new ≡ self.old)
            ⊎ LeavesAnswered ⟦<K as Keeper>⟧ outputs.Journal (λ owed. ⊤) message
            self.old self.new) }
        ensures keeps { Keeps ⟦<K as Keeper>⟧ self.old self.new }
    {
        match message {
            Message::Fit(request) => self.note_request(request),
            Message::Unfit => {
                self.act(Message::Unfit);
                self.given = Given::Nothing;
                Ok(())
            }
        }
    }

    /// Answers the message that was taken last, and gives what is owed for it.
    fn answer(&mut self, message: Message) -> Result<(), NoMemory>
        requires message { IfFit message RequestFits }
        ensures answered { OnOk result (LeavesAnswered ⟦<K as Keeper>⟧
            (output_of self.old.pipe.journal) (λ owed. given self.new ≡ owed) message
            self.old self.new) }
        ensures journal { OnErr result (IsTrue self.old.pipe.journal) }
        ensures no_memory { OnErr result ((self.new ≡ self.old)
            ⊎ LeavesAnswered ⟦<K as Keeper>⟧ outputs.Journal (λ owed. ⊤) message
            self.old self.new) }
        ensures keeps { Keeps ⟦<K as Keeper>⟧ self.old self.new }
    {
        match self.pipe.output() {
            Output::Replies => {
                self.reply(message);
                Ok(())
            }
            Output::Journal => self.note(message),
        }
    }

    /// Gives the last `Bad`, which says that the input is broken; a journal says nothing of it.
    fn give_closing(&mut self)
        ensures given { given self.new ≡ closing (output_of self.old.pipe.journal) }
        ensures same { self.new ≡ record self.old { given = self.new.given } }
    {
        self.given = match self.pipe.output() {
            Output::Replies => Given::Reply(reply_head(&Reply::Bad), Reply::Bad),
            Output::Journal => Given::Nothing,
        };
    }
}

impl<K: Keeper> Consumer for Responder<K> {
    ghost use Rattle.std.specs.Prelude.{◌+◌, length};
    ghost use Rattle.pipe_command.specs.Giving.{given_body, given_head};
    ghost use Rattle.pipe_command.specs.Responding.{GaveSo, PipeLacks, PipeWaits, PipeWent, unbegun};

    type Over = PipeVerdict;

    ghost went = { PipeWent ⟦<K as Keeper>⟧ };

    ghost waits = { PipeWaits };

    ghost gave = { GaveSo ⟦<K as Keeper>⟧ };

    ghost lacks = { PipeLacks ⟦<K as Keeper>⟧ };

    ghost work = { λ now. length now.stream.reader.held + unbegun now.is_begun };

    ghost parts = { λ now. (given_head now.given now.line.items, given_body now.given) };

    fn feed(&mut self, piece: &[u8]) -> Result<(), NoMemory> {
        self.stream.take(piece)
    }

    fn step(&mut self, more: bool) -> Stepped<PipeVerdict> {
        if !self.is_begun {
            self.is_begun = true;
            self.given = Given::FirstLine;
            return Stepped::Did;
        }
        match self.stream.next() {
            Next::Message(message) => match self.answer(message) {
                Ok(()) => Stepped::Did,
                Err(NoMemory) => Stepped::NoMemory,
            },
            Next::More => Stepped::More,
            Next::Broken => {
                if !more {
                    return Stepped::More;
                }
                self.give_closing();
                Stepped::Over(PipeVerdict::Broken)
            }
            Next::NoMemory => Stepped::NoMemory,
        }
    }

    fn finish(&mut self) -> Result<PipeVerdict, NoMemory> {
        match self.stream.finish() {
            None => {
                self.given = Given::Nothing;
                Ok(PipeVerdict::Whole)
            }
            Some(_) => {
                self.give_closing();
                Ok(PipeVerdict::Broken)
            }
        }
    }

    fn parts(&self) -> (&[u8], &[u8]) {
        match &self.given {
            Given::Nothing => (&[], &[]),
            Given::FirstLine => (FIRST_LINE, &[]),
            Given::Reply(head, reply) => (head.as_slice(), reply_body(reply)),
            Given::Line => (self.line.as_slice(), &[]),
        }
    }
}
