// Bytes as bits: a window, a register's shift, bits put in place; XOR of blocks.
#![tactic(auto)]

mod block;
mod place;
mod read;
mod register;
mod shift;

pub use block::xor_block;
pub use place::put_bits;
pub use read::window;
pub use register::shift_in;
