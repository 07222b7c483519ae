// AES (FIPS 197): the public calls under a key. The crate `cipher` has the block functions, `expansion` the round keys.
#![tactic(auto)]

mod calls;

pub use calls::{KeyLength, Schedule, decrypt, encrypt, expand, key_ok};
