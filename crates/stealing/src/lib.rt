// Ciphertext stealing for CBC (request 03, after RFC 2040): messages of 17 bytes or more that are no longer than their
// text.
#![tactic(auto)]

mod message;

pub use message::process;
