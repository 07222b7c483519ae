// What is prepared is one array, which the caller lends: the words of the table, 256 to a row; the bytes of the last
// round, a word to each; the words of the round keys; the rounds; the direction.
pub const LAST: usize = 1024;

pub const KEYS: usize = 1280;

pub const ROUNDS: usize = 1340;

pub const DIRECTION: usize = 1341;

pub const WORDS: usize = 1342;

pub type Prepared = [u32; WORDS];
