// One unit of a text, by its mode's rule.
#![tactic(auto)]

mod unit;

pub use unit::{Rule, Step, runs_dec};
