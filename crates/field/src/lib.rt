// Bytes as elements of GF(2^8) with the polynomial 11b (FIPS 197 section 4).
#![tactic(auto)]

mod arithmetic;
mod rows;

pub use arithmetic::{double, product};
pub use rows::{double_row, join_row, split_row};
