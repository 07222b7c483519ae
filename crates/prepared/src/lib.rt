// Enc and Dec once more, for many blocks under one key: what a block needs is prepared once, in an array that the
// caller lends, and lent to each block. The crate `cipher` follows FIPS 197 step by step on the square state. Both are
// driven by tables, which are read at indices that depend on the key.
#![tactic(auto)]

mod counted;
mod fill;
mod keys;
mod layout;
mod preparation;
mod table;
mod words;

pub use counted::{Ran, run};
pub use layout::{Prepared, WORDS};
pub use preparation::prepare;
