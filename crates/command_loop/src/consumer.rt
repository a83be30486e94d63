//! What takes the bytes of an input, and gives those of an output.
ghost use Rattle.std.specs.Prelude.{◌≡◌, ◌<◌, ◌≤◌, ◌++◌, ℕ, Bool, List, length, true, OnOk, OnErr, IfOk};
ghost use Rattle.asp_base.specs.Limits.{most_piece};
ghost use Rattle.command_loop.specs.Feeding.{Going, GoesOn, OverAnyhow, OverAtEnd, FollowsFrom, IsShort, IfConsumerOver, both_parts};

use crate::Status;
use asp_base::NoMemory;

/// What a consumer did when it was asked to go on.
#[derive(Clone, Copy, Debug, PartialEq, Eq)]
pub enum Stepped<V> {
    /// One thing was done, and what it gives is to be written.
    Did,
    /// Nothing more can be done with the bytes that were fed.
    More,
    /// It is over, whatever follows, and what this gives is to be written.
    Over(V),
    /// There was no memory, and nothing is to be written.
    NoMemory,
}

/// What is fed the bytes of an input, and gives those of an output, one thing after the other.
///
/// Its relations are of the consumer at the start of a run and the consumer now; so its settings
/// are read from the first, and stay what they were. Behind them stand the bytes that it was fed
/// since the start, those that it gave, and where it is asked for, those that it gave last.
///
/// A counter of bytes, for one, gives nothing until the input ends, and then the number in a line.
///
/// - `went start now fed given` is `now.count ≡ length fed` and `given ≡ []`.
/// - `waits more now` is always so: it can do nothing before the end.
/// - `gave going start now fed given last` is never so where it goes on, or is over anyhow, since
///   no step of it gives anything; where it is over at the end, it is `given ≡ []` and
///   `last ≡ decimal (length fed) ++ codes "\n"`.
/// - `lacks start now fed given` is never so, since it takes no memory.
/// - `work now` is 0: each step of it answers `More`.
/// - `parts now` is that line, and no body.
///
/// So a run in which it is over has written the number of the bytes of the whole input. The
/// smallest one that is used is the `Replayer` of `journal_replay`.
pub trait Consumer {
    /// What it finds where it is over.
    type Over: Status;

    /// Where it stands between two calls: it was fed the first bytes, and gave the second.
    ghost went: { Self → Self → List ℕ → List ℕ → Type 0 };

    /// It did all that it can with the bytes that it was fed; the truth is whether it may be fed
    /// more.
    ghost waits: { Bool → Self → Type 0 };

    /// What it gave last: it was fed the first bytes, gave the second before, and the third last;
    /// and so it goes on with it.
    ghost gave: { Going Self.Over → Self → Self → List ℕ → List ℕ → List ℕ → Type 0 };

    /// Memory was wanting: the first bytes were for it, and the second were given before.
    ghost lacks: { Self → Self → List ℕ → List ℕ → Type 0 };

    /// More than the things that it can do with the bytes that it was fed.
    ghost work: { Self → ℕ };

    /// What it gave last, in two parts.
    ghost parts: { Self → List ℕ × List ℕ };

    /// Takes a piece of the input.
    fn feed(&mut self, piece: &[u8]) -> Result<(), NoMemory>
        requires waits { waits true self.old }
        requires piece { length piece.now ≤ most_piece }
        requires short { IsShort went self.old (length piece.now) }
        ensures ok { OnOk result (FollowsFrom went self.old
            (λ start fed given. went start self.new (fed ++ piece.now) given)) }
        ensures err { OnErr result (FollowsFrom went self.old
            (λ start fed given. lacks start self.new (fed ++ piece.now) given)) };

    /// Does the next thing. Where `more` is false, no more bytes will be fed.
    fn step(&mut self, more: bool) -> Stepped<Self::Over>
        requires short { IsShort went self.old 0 }
        ensures did { result ≡ Stepped.Did → FollowsFrom went self.old (λ start fed given.
            went start self.new fed (given ++ both_parts (parts self.new))
            × gave GoesOn start self.new fed given (both_parts (parts self.new))) }
        ensures fewer { result ≡ Stepped.Did → work self.new < work self.old }
        ensures more { result ≡ Stepped.More → FollowsFrom went self.old
            (λ start fed given. went start self.new fed given) }
        ensures waits { result ≡ Stepped.More → waits more self.new }
        ensures over { IfConsumerOver result (λ over. FollowsFrom went self.old (λ start fed given.
            gave (OverAnyhow more over) start self.new fed given (both_parts (parts self.new)))) }
        ensures no_memory { result ≡ Stepped.NoMemory → FollowsFrom went self.old
            (λ start fed given. lacks start self.new fed given) };

    /// The input has ended: what was found. What this gives is to be written.
    fn finish(&mut self) -> Result<Self::Over, NoMemory>
        requires waits { waits true self.old }
        ensures over { IfOk result (λ over. FollowsFrom went self.old (λ start fed given.
            gave (OverAtEnd over) start self.new fed given (both_parts (parts self.new)))) }
        ensures no_memory { OnErr result (FollowsFrom went self.old
            (λ start fed given. lacks start self.new fed given)) };

    /// What it gave last, as the head and the body of a message. It takes no memory.
    fn parts(&self) -> (&[u8], &[u8])
        ensures head { result.0.now ≡ (parts self.now).0 }
        ensures body { result.1.now ≡ (parts self.now).1 };
}
