// Document 01, "The text program": the form of its input.
#![tactic(auto)]

mod form;
mod reading;

pub use form::{MAX_DATA_DIGITS, MAX_KEY_DIGITS, Request, parse};
pub use reading::reading_ends;
