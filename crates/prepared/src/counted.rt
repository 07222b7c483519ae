// A block by what was prepared, with its count.
ghost use Rattle.prepared.specs.Prepared.{prepared_block, Counted};

use crate::layout::Prepared;

// What the block function made of a block, and the runs that it took: a count and no flag, which a feed adds up.
#[derive(Clone, Copy)]
pub struct Ran {
    pub block: [u8; 16],
    pub runs: usize,
}

// Runs the block function that was prepared once, and counts it. No other function gives a block out of this crate.
pub fn run(prepared: &Prepared, block: [u8; 16]) -> Ran
    ensures { Counted (prepared_block prepared.now) block result }
{
    Ran {
        block: columns::by_prepared(prepared, block),
        runs: 1,
    }
}
