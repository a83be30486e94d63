//! The command `serve`: connections served over one store, by the words of a command line.
#![tactic(auto)]

mod served_words;
mod words_of_serve;

pub use served_words::{serve, serve_noted};
pub use words_of_serve::{ServeWords, serve_words, serve_words_with_folder};
