// Document 01, "The text program": the first line of its input, and its words.
#![tactic(auto)]

mod line;
mod words;

pub use line::{Header, first_line};
pub use words::{direction_word, mode_word};
