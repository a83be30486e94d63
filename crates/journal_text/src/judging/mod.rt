//! Journals judged: whether entries are a legal history, and the line that tells it.

mod asking;
mod checker;
mod history_state;
mod judgement;
mod judgement_line;
mod objection;
mod replies;

pub use checker::Checker;
pub use judgement::{Judgement, Why, illegal_stays, legal_is_judged_legal, one_judgement};
pub use judgement_line::write_judgement;
pub use objection::Objection;
