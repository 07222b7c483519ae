// What the library exports to programs in C, C++, Rust and Python. A `&[u8]` goes as a pointer and a length, a `&[u8;
// 16]` as a pointer to 16 bytes, a struct by value. Each call is total; nothing that a caller lends as `&mut` may
// overlap anything else that it lends. The 1 in each name counts the forms that structs and calls have had: whoever
// changes one raises the number in all names, and no older program links.
//
// The C interface: a number, and zeros beside it, in place of each `Result`.
#![tactic(auto)]

mod blocks;
mod counters;
mod messages;
mod sessions;
