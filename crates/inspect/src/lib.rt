// One CBC block by itself, and whether two sessions are alike (document 01, "Padding, one block, comparison").
#![tactic(auto)]

mod compare;

pub use compare::alike;
pub use single::{decrypt_block, neighbour};
