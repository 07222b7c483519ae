// A block column by column, by words that were prepared for it: four words, the columns of the state, and one table of
// 1024 words for SubBytes and MixColumns together, 256 to a row. The table is read at indices that depend on the key.
// The crate `prepared` fills the words, and runs it for callers, with a count.
#![tactic(auto)]

mod block;
mod layout;
mod rounds;

pub use block::by_prepared;
pub use layout::{DIRECTION, KEYS, LAST, Prepared, ROUNDS, WORDS};
