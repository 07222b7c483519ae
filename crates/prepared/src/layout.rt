// What is prepared, for callers: an array that they lend, and its length. What stands where in it is for `columns` and
// this crate alone. It is no struct of its parts: what `prepare` promises (`PreparedBy`) names each word by its place.
pub const WORDS: usize = columns::WORDS;

pub type Prepared = [u32; WORDS];
