//! How a visit came out, and the spelling of that in a fixed buffer.
ghost use Rattle.std.specs.Prelude.{◌≡◌, ◌+◌, ◌≤◌, length};
ghost use Rattle.visit_core.specs.OutcomeText.{outcome_spelling, with_number};

use asp_base::FixedText;
use itoa::Buffer;

/// How a visit came out.
#[derive(Clone, Copy, Debug, PartialEq, Eq)]
pub enum Outcome {
    /// The page ran and its end was stored, or there was nothing to store.
    Done,
    /// At its end the page no longer held its lock; another lock was in the way.
    LostLocked {
        /// The cookie of the lock in the way, 0 where there is none.
        cookie: u64,
        /// How long that lock has been held, in seconds.
        age: u64,
    },
    /// At its end the page's item was gone.
    LostMissing,
    /// The polls were used up, and the page did not run.
    GaveUp {
        /// The cookie of the lock that the last poll found.
        cookie: u64,
        /// How long that lock has been held, in seconds.
        age: u64,
    },
    /// The link to the state server was lost.
    LinkFault,
    /// The state server refused a request, or gave an answer that does not belong to it.
    Refused {
        /// The status of that answer.
        status: u16,
    },
}

/// The spelling of an outcome.
pub type OutcomeText = FixedText<64>;

/// Adds a blank and a number.
fn push_number(text: &mut OutcomeText, n: u64)
    requires { length text.old + 21 ≤ 64 }
    ensures text { text.new ≡ with_number text.old n }
    ensures room { length text.new ≤ length text.old + 21 }
{
    let mut buffer = Buffer::new();
    text.push(b" ");
    text.push(buffer.format(n).as_bytes());
}

/// The outcome's spelling: `done`, `lost-lock locked COOKIE AGE`, `lost-lock missing`,
/// `gave-up COOKIE AGE`, `link-fault` or `refused STATUS`, with decimal numbers.
#[tactic(auto, unfolding(crate::specs::OutcomeText::outcome_spelling))]
pub fn outcome_text(outcome: &Outcome) -> OutcomeText
    ensures { result ≡ outcome_spelling outcome.now }
{
    let mut text = OutcomeText::new();
    match outcome {
        Outcome::Done => text.push(b"done"),
        Outcome::LostLocked { cookie, age } => {
            text.push(b"lost-lock locked");
            push_number(&mut text, *cookie);
            push_number(&mut text, *age);
        }
        Outcome::LostMissing => text.push(b"lost-lock missing"),
        Outcome::GaveUp { cookie, age } => {
            text.push(b"gave-up");
            push_number(&mut text, *cookie);
            push_number(&mut text, *age);
        }
        Outcome::LinkFault => text.push(b"link-fault"),
        Outcome::Refused { status } => {
            text.push(b"refused");
            push_number(&mut text, *status as u64);
        }
    }
    text
}
