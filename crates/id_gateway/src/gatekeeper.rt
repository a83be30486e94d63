//! One connection's page requests, each served, and its answer given, before the next is taken.
ghost use Rattle.std.specs.Prelude.{◌≡◌, ◌≤◌, ◌++◌, [], OnOk, OnErr, IfSome};

use crate::Random;
use crate::answer::push_head;
use crate::serving::serve;
use crate::top_call::GateVerdict;
use crate::words::{GateTerms, LAST_START};
use asp_base::{Bytes, NoMemory, StepClock};
use asp_messages::{MOST_COOKIE, Reply, ReplyHead, reply_head};
use command_loop::{Consumer, Stepped};
use keeper::Keeper;
use message_framing::{Found, MessageReader};
use page_requests::{PageRequest, PageRequests};
use plain_desk::PlainDesk;
use std::alloc::Global;

/// What was given last.
#[derive(Debug, Drop)]
pub enum Given {
    /// Nothing.
    Nothing,
    /// An answer, whose head is in the buffer, with its body.
    Answer(Bytes),
    /// The head of the last `Bad`.
    Closing(ReplyHead),
}

/// One connection's page requests, the desk, the clock, and where identifiers come from.
#[derive(Drop)]
pub struct Gatekeeper<K, R> {
    /// The memory for answers.
    pub alloc: Global,
    /// What the gateway was told.
    pub gate: GateTerms,
    /// The bytes that were read and not taken yet.
    pub reader: MessageReader<PageRequests>,
    /// The items, and the cookies that are left.
    pub desk: PlainDesk<K>,
    /// The moments of the requests to come.
    pub clock: StepClock,
    /// Where new identifiers come from.
    pub random: R,
    /// What was given last.
    pub given: Given,
    /// The head of the last answer.
    pub head: Vec<u8>,
}

impl<K: Keeper, R: Random> Gatekeeper<K, R> {
    ghost use Rattle.keeper.specs.Items.{IsEmptyTold};
    ghost use Rattle.id_gateway.specs.Gate.{GateFits, last_bad};
    ghost use Rattle.id_gateway.specs.Keeping.{GateWent};
    ghost use Rattle.id_gateway.specs.Giving.{AnswersPage, CutsOff, last_given, GateKeeps};
    ghost use Rattle.page_requests.specs.Requests.{BodyIsShort};

    /// Nothing was read. It takes no memory.
    pub fn new(alloc: Global, gate: GateTerms, keeper: K, random: R) -> Gatekeeper<K, R>
        requires gate { GateFits gate }
        requires no_faults { K.count keeper ≡ 0 }
        requires empty { IsEmptyTold (K.told keeper) }
        ensures begun { GateWent ⟦<K as Keeper>⟧ ⟦<R as Random>⟧ result result [] [] }
        ensures gate { result.gate ≡ gate }
        ensures keeper { result.desk.keeper ≡ keeper }
        ensures random { result.random ≡ random }
    {
        Gatekeeper {
            alloc,
            gate,
            reader: MessageReader::new(alloc),
            desk: PlainDesk::new(alloc, keeper, 1, MOST_COOKIE),
            clock: StepClock::new(gate.start, gate.step),
            random,
            given: Given::Nothing,
            head: Vec::new(alloc),
        }
    }

    /// Serves the request that was taken last, and gives the answer.
    fn answer(&mut self, request: PageRequest) -> Result<(), NoMemory>
        requires { BodyIsShort request }
        ensures answered { OnOk result (AnswersPage ⟦<K as Keeper>⟧ ⟦<R as Random>⟧ request
            self.old self.new) }
        ensures no_memory { OnErr result (CutsOff ⟦<K as Keeper>⟧ ⟦<R as Random>⟧ request
            self.old self.new) }
        ensures keeps { GateKeeps ⟦<K as Keeper>⟧ self.old self.new }
    {
        let moment = self.clock.tick().min(LAST_START);
        let answer = serve(
            self.alloc,
            &mut self.desk,
            &mut self.random,
            self.gate.mode,
            moment,
            request,
        )?;
        self.head.clear();
        push_head(&mut self.head, &answer)?;
        self.given = Given::Answer(answer.body);
        Ok(())
    }

    /// Gives the last `Bad`, which says that the input is broken.
    fn give_closing(&mut self)
        ensures given { last_given self.new ≡ last_bad }
        ensures same { self.new ≡ record self.old { given = self.new.given } }
    {
        self.given = Given::Closing(reply_head(&Reply::Bad));
    }
}

impl<K: Keeper, R: Random> Consumer for Gatekeeper<K, R> {
    ghost use Rattle.std.specs.Prelude.{length};
    ghost use Rattle.id_gateway.specs.Giving.{last_body, last_head};
    ghost use Rattle.id_gateway.specs.Keeping.{GateGaveSo, GateLacks, GateWaits, GateWent};

    type Over = GateVerdict;

    ghost went = { GateWent ⟦<K as Keeper>⟧ ⟦<R as Random>⟧ };

    ghost waits = { GateWaits ⟦<K as Keeper>⟧ ⟦<R as Random>⟧ };

    ghost gave = { GateGaveSo ⟦<K as Keeper>⟧ ⟦<R as Random>⟧ };

    ghost lacks = { GateLacks ⟦<K as Keeper>⟧ ⟦<R as Random>⟧ };

    ghost work = { λ now. length now.reader.bytes.held };

    ghost parts = { λ now. (last_head now.given now.head.items, last_body now.given) };

    fn feed(&mut self, piece: &[u8]) -> Result<(), NoMemory> {
        self.reader.feed(piece)
    }

    fn step(&mut self, more: bool) -> Stepped<GateVerdict> {
        match self.reader.next() {
            Found::Message(request) => match self.answer(request) {
                Ok(()) => Stepped::Did,
                Err(NoMemory) => Stepped::NoMemory,
            },
            Found::More => Stepped::More,
            Found::Broken => {
                if !more {
                    return Stepped::More;
                }
                self.give_closing();
                Stepped::Over(GateVerdict::Broken)
            }
            Found::NoMemory => Stepped::NoMemory,
        }
    }

    fn finish(&mut self) -> Result<GateVerdict, NoMemory> {
        if self.reader.end() {
            self.given = Given::Nothing;
            return Ok(GateVerdict::Whole);
        }
        self.give_closing();
        Ok(GateVerdict::Broken)
    }

    fn parts(&self) -> (&[u8], &[u8]) {
        match &self.given {
            Given::Nothing => (&[], &[]),
            Given::Answer(body) => (self.head.as_slice(), body.as_slice()),
            Given::Closing(head) => (head.as_slice(), &[]),
        }
    }
}
