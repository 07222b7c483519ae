// Bytes of a text: searched, tested, and hexadecimal digits to bytes and back.
#![tactic(auto)]

mod hex;
mod parts;
mod scan;

pub use hex::{all_digits, decode, digits_fit, encode};
pub use parts::cut;
pub use scan::{between, up_to};
