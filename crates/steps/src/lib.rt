// AES (FIPS 197): the square state, and the steps of a round on it.
#![tactic(auto)]

mod round;
mod state;

pub use round::{
    add_round_key, inv_mix_columns, inv_shift_rows, key_row, mix_columns, shift_rows, sub_bytes,
};
pub use state::{load, store};
