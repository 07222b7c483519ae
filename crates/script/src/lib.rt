// What a program that runs written lists of calls needs: a line's words, each read as of its kind, and the text of the
// answers.
#![tactic(auto)]

mod answers;
mod hex;
mod words;

pub use answers::Answers;
pub use hex::Hex;
pub use words::{MAX_BYTES, MAX_LINE, Space, Words};
