// AES (FIPS 197): the block functions under given rounds and round keys, step by step on the square state.
#![tactic(auto)]

mod block;

pub use block::{decrypt_block, encrypt_block, rounds_ok};
