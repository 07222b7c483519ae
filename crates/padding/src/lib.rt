// Padding (document 01, "Padding, one block, comparison"): pad a text to whole blocks, and find the text in a padded
// one.
#![tactic(auto)]

mod append;
mod strip;

pub use append::pad;
pub use strip::unpad;
