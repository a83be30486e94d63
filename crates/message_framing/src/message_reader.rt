//! A kind of messages, and a reader of them from the pieces of a stream.
ghost use Rattle.std.specs.Prelude.{◌≡◌, ◌<◌, ◌≤◌, ◌++◌, ℕ, List, [], length, vec_capacity, Some, IsNone, IfSome, ◌⊎◌, ◌+◌, ◌-◌, ◌*◌, ◌↔◌, IsTrue, IsFalse, IsOk, OnOk, OnErr, min};
ghost use Rattle.asp_messages.specs.Fields.{most_body};
ghost use Rattle.asp_messages.specs.Head.{most_head};
ghost use Rattle.message_framing.specs.declared.head.Phase.{Phase};
ghost use Rattle.message_framing.specs.declared.head.Phase.TheVariants.{Blank};
ghost use Rattle.message_framing.specs.Framed.{Framed, BeginsMessage, BeginsNothing, IfFound, UnlessFound, looks_of, is_broken_state, SearchStands, IsLooked, IsPast, GivesMessage, LooksWithin, TakesFramed, IsNext};
ghost use Rattle.message_framing.specs.HeadEnd.{phase_after, EndsHead};
ghost use Rattle.asp_base.specs.Limits.{most_piece};
ghost use Rattle.asp_messages.specs.Stream.{HasNoMessage, IsHopeless};
ghost use Rattle.message_framing.specs.ReaderState.{CountedReader, empty_reader, fed, waiting, broken, most_held, TakesMessage};

use crate::head::{HeadSearch, MOST_HEAD, Phase, look_on};
use asp_base::{Bytes, Held, MOST_PIECE, NoMemory, StepCount};
use httparse::spans::{EMPTY_HEADER_SPAN, HeaderSpan};
use std::alloc::Global;
use std::fmt;
use std::marker::{Brand, Model};
use std::mem::replace;
use std::sync::ledger::{Blank, Ledger};

/// A message whose head was read, and whose body is still to come.
#[derive(Drop)]
pub struct Begun<M> {
    /// The message, with its body still to be filled in.
    pub message: M,
    /// The length of the body that the head announces, in bytes, at most 4,194,304.
    pub body_len: u64,
}

/// A kind of messages, each a head and the body that it announces: what their heads mean.
pub trait MessageKind {
    /// A message.
    type Message: Drop;

    // The text is a head that announces a body of so many bytes: how long a reader waits for it.
    ghost IsHead: { List ℕ → ℕ → Type 0 };

    // The text is a head, it announces this body, and both mean the message: what `begin` reads.
    ghost Means: { List ℕ → List ℕ → Self.Message → Type 0 };

    // The bytes spell the message: what the callers of a reader are told.
    ghost Spells: { List ℕ → Self.Message → Type 0 };

    // More bytes may make a message of these: when a reader may ask for more.
    ghost Waits: { List ℕ → Type 0 };

    // The message with this body: what `fill` makes.
    ghost filled: { Self.Message → List ℕ → Self.Message };

    /// Reads a head that ends with the text, of at most 8,192 bytes: the message that it begins.
    /// `None` where no message begins with it. `room` is empty and has room for as many bytes as
    /// the text has: what the message keeps of the head is put there, and may be taken out with
    /// the vector's memory. It takes no other memory. `headers` are overwritten.
    fn begin(
        room: &mut Vec<u8>,
        headers: &mut [HeaderSpan; 64],
        text: &[u8],
    ) -> Option<Begun<Self::Message>>
        requires empty { room.old.items ≡ [] }
        requires room { length text.now ≤ vec_capacity room.old }
        requires short { length text.now ≤ most_head }
        ensures head { IfSome result (λ begun. IsHead text.now begun.body_len) }
        ensures means { IfSome result (λ begun. BeginsMessage Means filled text.now begun) }
        ensures none { IsNone result → BeginsNothing Means text.now };

    /// The message with its body. It takes no memory.
    fn fill(message: Self::Message, body: Bytes) -> Self::Message
        ensures { result ≡ filled message body };

    // A head and the body that it announces spell what they mean.
    ghost spells: { (text body : List ℕ) (m : Self.Message) → Means text body m
        → Spells (text ++ body) m };

    // Bytes that spell a message are a head and the body that it announces.
    ghost spelled: { (bytes : List ℕ) (m : Self.Message) → Spells bytes m → Framed Means bytes m };

    // A head ends at its first empty line, and has at most 8,192 bytes.
    ghost ends: { (text body : List ℕ) (m : Self.Message) → Means text body m
        → EndsHead text × (length text ≤ most_head) };

    // The body of each message has the length that its head announces.
    ghost fits: { (text body : List ℕ) (len : ℕ) (m : Self.Message) → IsHead text len
        → Means text body m → length body ≡ len };

    // No head announces more than 4,194,304 bytes.
    ghost short: { (text : List ℕ) (len : ℕ) → IsHead text len → len ≤ most_body };

    // Bytes without the end of a head wait for it, where there is room for one.
    ghost waits_for_head: { (bytes : List ℕ) (phase : Phase) → phase_after Blank bytes ≡ Some phase
        → length bytes < most_head → Waits bytes };

    // A head whose body is not whole waits for it.
    ghost waits_for_body: { (text back : List ℕ) (len : ℕ) → IsHead text len → length back < len
        → Waits (text ++ back) };
}

/// The most bytes that a reader holds: a head, a body and a piece.
pub const MOST_HELD: usize = 4_218_880;

/// What a reader finds at the front of the bytes that it holds.
#[derive(Debug, Drop)]
pub enum Found<M> {
    /// A message, which was taken.
    Message(M),
    /// No message is whole; feed more bytes.
    More,
    /// The bytes can never become a message; the reader is broken for good.
    Broken,
    /// There was no memory for the message; the bytes held are as they were.
    NoMemory,
}

/// How far a reader has come with the first message of the bytes that it holds.
#[derive(Drop)]
pub enum State<M> {
    /// It looked at so many bytes, in which the head doesn't end.
    Looking(u64, Phase),
    /// The head ends after so many bytes, and was not read.
    Ended(u64),
    /// The head has so many bytes, and begins this message.
    Read(u64, Begun<M>),
    /// No message can come. It looked at a byte so often.
    Broken(u64),
}

/// A reader of messages of one kind from the pieces of a stream. It never holds more than 4,218,880
/// bytes.
#[derive(Drop)]
pub struct MessageReader<K: MessageKind> {
    alloc: Global,
    held: Held,
    room: Vec<u8>,
    spans: [HeaderSpan; 64],
    state: State<K::Message>,
    may_feed: bool,
}

impl<K: MessageKind> Model for MessageReader<K> {
    ghost use Rattle.std.specs.Prelude.{◌<◌, ◌≤◌, ◌+◌, length, IsTrue};
    ghost use Rattle.asp_messages.specs.Fields.{most_body};
    ghost use Rattle.asp_messages.specs.Head.{most_head};
    ghost use Rattle.message_framing.specs.Framed.{SearchStands, reading_of};
    ghost use Rattle.message_framing.specs.ReaderState.{CountedReader, most_held};

    ghost Value = { CountedReader };

    ghost view = { λ r. reading_of r.state r.held r.may_feed };

    ghost invariant = { λ r. SearchStands K.IsHead K.Means K.filled r.state r.held
        × (length r.held ≤ most_held)
        × (IsTrue r.may_feed → length r.held < most_head + most_body) };
}

/// Looks on for the end of the head.
fn look<K: MessageKind, L: Ledger>(
    held: &Held,
    state: &mut State<K::Message>,
    steps: &mut StepCount<L>,
)
    requires { SearchStands K.IsHead K.Means K.filled state.old held.now }
    ensures stands { SearchStands K.IsHead K.Means K.filled state.new held.now }
    ensures looked { IsLooked state.new held.now }
    ensures broken { is_broken_state state.new ≡ is_broken_state state.old }
    ensures stays { IsTrue (is_broken_state state.old) → state.new ≡ state.old }
    ensures steps { steps.new + looks_of state.old ≡ steps.old + looks_of state.new }
    ensures rises { steps.old ≤ steps.new }
{
    if let State::Looking(from, phase) = *state {
        *state = match look_on(held, from, phase, steps) {
            HeadSearch::Ended(len) => State::Ended(len),
            HeadSearch::Open(len, phase) => State::Looking(len, phase),
        };
    }
}

/// Reads the head whose end was found, with `room` for what the message keeps of it and `spans` for
/// where its fields lie. After `NoMemory` nothing has changed.
fn read<K: MessageKind, L: Ledger>(
    alloc: Global,
    held: &mut Held,
    room: &mut Vec<u8>,
    spans: &mut [HeaderSpan; 64],
    state: &mut State<K::Message>,
    steps: &mut StepCount<L>,
) -> Result<(), NoMemory>
    requires stands { SearchStands K.IsHead K.Means K.filled state.old held.old }
    requires looked { IsLooked state.old held.old }
    ensures stands { SearchStands K.IsHead K.Means K.filled state.new held.new }
    ensures past { OnOk result (IsPast state.new held.new) }
    ensures same { OnOk result (IsFalse (is_broken_state state.new) → held.new ≡ held.old) }
    ensures hopeless { OnOk result (IsTrue (is_broken_state state.new)
        → IsTrue (is_broken_state state.old) ⊎ IsHopeless (Framed K.Means) held.old) }
    ensures stays { IsTrue (is_broken_state state.old)
        → IsOk result × (state.new ≡ state.old) × (held.new ≡ held.old) }
    ensures within { IsFalse (is_broken_state state.old)
        → looks_of state.new ≤ 2 * min (length held.old) most_head }
    ensures err { OnErr result (state.new ≡ state.old) }
    ensures err_held { OnErr result (held.new ≡ held.old) }
    ensures steps { steps.new + looks_of state.old ≡ steps.old + looks_of state.new }
    ensures rises { steps.old ≤ steps.new }
{
    let State::Ended(len) = *state else {
        return Ok(());
    };
    room.clear();
    room.reserve(len as usize)?;
    match K::begin(room, spans, held.front(len, steps)) {
        Some(begun) => {
            let wanted = begun.body_len;
            let there = held.len() - len;
            let piece = MOST_PIECE as u64;
            // A body as long as a piece, or longer, gets its room at once.
            if wanted >= piece && there < wanted {
                held.make_room(wanted - there + piece);
            }
            *state = State::Read(len, begun);
        }
        None => {
            *held = Held::new(alloc);
            *state = State::Broken(2 * len);
        }
    }
    Ok(())
}

/// Gives the message of the head that was read, where its body is whole, and takes both off the
/// bytes.
fn give<K: MessageKind>(
    alloc: Global,
    held: &mut Held,
    state: &mut State<K::Message>,
) -> Found<K::Message>
    requires stands { SearchStands K.IsHead K.Means K.filled state.old held.old }
    requires past { IsPast state.old held.old }
    ensures stands { SearchStands K.IsHead K.Means K.filled state.new held.new }
    ensures message { IfFound result (λ m. GivesMessage K.Means state.old held.old held.new m
        × (state.new ≡ State.Looking 0 Phase.Blank)) }
    ensures same { UnlessFound result (looks_of state.new ≡ looks_of state.old) }
    ensures more { result ≡ Found.More → (state.new ≡ state.old) × (held.new ≡ held.old) }
    ensures room { result ≡ Found.More → length held.old < most_head + most_body }
    ensures none_whole { result ≡ Found.More → HasNoMessage (Framed K.Means) held.old }
    ensures waits { result ≡ Found.More → K.Waits held.old }
    ensures broken { result ≡ Found.Broken → (held.new ≡ []) × IsTrue (is_broken_state state.new) }
    ensures hopeless { result ≡ Found.Broken → IsTrue (is_broken_state state.old)
        ⊎ IsHopeless (Framed K.Means) held.old }
    ensures stays { IsTrue (is_broken_state state.old)
        → (result ≡ Found.Broken) × (looks_of state.new ≡ looks_of state.old) }
    ensures less { looks_of state.new ≤ looks_of state.old }
    ensures no_memory { result ≡ Found.NoMemory → (state.new ≡ state.old) × (held.new ≡ held.old) }
{
    let (len, wanted) = match state {
        State::Looking(len, _) => {
            if *len < MOST_HEAD as u64 {
                return Found::More;
            }
            let looks = *len;
            *held = Held::new(alloc);
            *state = State::Broken(looks);
            return Found::Broken;
        }
        State::Ended(_) => return Found::More,
        State::Broken(_) => return Found::Broken,
        State::Read(len, begun) => (*len, begun.body_len),
    };
    if held.len() - len < wanted {
        return Found::More;
    }
    let Ok(body) = held.split(len, wanted) else {
        return Found::NoMemory;
    };
    match replace(state, State::Looking(0, Phase::Blank)) {
        State::Read(_, begun) => Found::Message(K::fill(begun.message, body)),
        _ => Found::More,
    }
}

// It shows no bytes: whoever reads them counts them.
impl<K: MessageKind> fmt::Debug for MessageReader<K> {
    fn fmt<W: fmt::Write>(&self, f: &mut fmt::Formatter<W>) -> fmt::Result {
        f.write_str("MessageReader")
    }
}

impl<K: MessageKind> MessageReader<K> {
    /// A reader that was fed nothing. It takes no memory.
    pub fn new(alloc: Global) -> MessageReader<K>
        ensures { result ≡ record { bytes = empty_reader; looks = 0 } }
    {
        MessageReader {
            alloc,
            held: Held::new(alloc),
            room: Vec::new(alloc),
            spans: [EMPTY_HEADER_SPAN; 64],
            state: State::Looking(0, Phase::Blank),
            may_feed: true,
        }
    }

    /// Adds a piece of at most 16,384 bytes to those held; a broken reader keeps nothing. The
    /// caller has heard `More` or `Broken` since the last piece. After `NoMemory` nothing has
    /// changed.
    pub fn feed(&mut self, piece: &[u8]) -> Result<(), NoMemory>
        requires piece { length piece.now ≤ most_piece }
        requires may_feed { IsTrue self.old.bytes.may_feed }
        ensures ok { OnOk result (self.new.bytes ≡ fed self.old.bytes piece.now) }
        ensures err { OnErr result (self.new ≡ self.old) }
        ensures looks { self.new.looks ≡ self.old.looks }
        ensures bound { length self.new.bytes.held ≤ most_held }
    {
        if !matches!(self.state, State::Broken(_)) {
            self.held.add(piece)?;
        }
        self.may_feed = false;
        Ok(())
    }

    /// How often the reader looked at a byte of the message that it holds: at most twice the bytes
    /// held, and twice 8,192.
    pub fn spent(&self) -> u64
        ensures { result ≡ self.now.looks }
    {
        match &self.state {
            State::Looking(len, _) | State::Ended(len) | State::Broken(len) => *len,
            State::Read(len, _) => 2 * *len,
        }
    }

    /// The first message of the bytes held, which are taken. `steps` counts each look at a byte.
    pub fn next_counted<L: Ledger>(&mut self, steps: &mut StepCount<L>) -> Found<K::Message>
        ensures message { IfFound result (TakesMessage K.Spells self.old.bytes self.new.bytes) }
        ensures counted { IfFound result (TakesFramed K.Means self.old self.new
            (steps.new - steps.old)) }
        ensures rises { steps.old ≤ steps.new }
        ensures growth { UnlessFound result (steps.new + self.old.looks ≡ steps.old
            + self.new.looks) }

        // No message is whole, and there is room for more bytes.
        ensures more { result ≡ Found.More → self.new.bytes ≡ waiting self.old.bytes }
        ensures none_whole { result ≡ Found.More → HasNoMessage K.Spells self.old.bytes.held }
        ensures waits { result ≡ Found.More → K.Waits self.old.bytes.held }

        // No bytes can follow that make a message, and the reader stays broken.
        ensures broken { result ≡ Found.Broken → self.new.bytes ≡ broken }
        ensures hopeless { result ≡ Found.Broken
            → IsTrue self.old.bytes.is_broken ⊎ IsHopeless K.Spells self.old.bytes.held }
        ensures stays { IsTrue self.old.bytes.is_broken → result ≡ Found.Broken }

        ensures no_memory { result ≡ Found.NoMemory → self.new.bytes ≡ self.old.bytes }
        ensures bound { length self.new.bytes.held ≤ most_held }
        ensures looks { LooksWithin self.old self.new }
    {
        look::<K, L>(&self.held, &mut self.state, steps);
        let Ok(()) = read::<K, L>(
            self.alloc,
            &mut self.held,
            &mut self.room,
            &mut self.spans,
            &mut self.state,
            steps,
        ) else {
            return Found::NoMemory;
        };
        let found = give::<K>(self.alloc, &mut self.held, &mut self.state);
        if matches!(found, Found::More | Found::Broken) {
            self.may_feed = true;
        }
        found
    }

    // A ledger is picked for a call, so that the counter is made in a call of its own.
    fn next_of<L: Ledger>(&mut self, blank: Blank) -> Found<K::Message>
        requires name { blank.name ≡ L.name }
        requires parts { blank.parts ≡ L.parts }
        requires has_parts { 0 < L.parts }
        ensures { IsNext K.Spells K.Waits self.old self.new result }
    {
        let mut steps = StepCount::<L>::new(blank);
        self.next_counted(&mut steps)
    }

    /// The first message of the bytes held, which are taken: `next_counted` with a counter of its
    /// own.
    pub fn next(&mut self) -> Found<K::Message>
        ensures { IsNext K.Spells K.Waits self.old self.new result }
    {
        self.next_of::<Brand>(Blank::new(1))
    }

    /// Whether all bytes fed were whole messages that were taken: the reader is not broken and
    /// holds no byte.
    pub fn end(&self) -> bool
        ensures { IsTrue result ↔ (IsFalse self.now.bytes.is_broken × (self.now.bytes.held ≡ [])) }
    {
        !matches!(self.state, State::Broken(_)) && self.held.len() == 0
    }
}
