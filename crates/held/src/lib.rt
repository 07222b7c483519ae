// Sessions as a program in C holds them: structs of numbers and bytes, in C's layout, that go in and come back by
// value. A mode is its number (the crate rules), and a flag is a byte, of which 0 says no and every other value yes: so
// any bytes are a session, and none is undefined.
#![tactic(auto)]

mod calls;
mod form;

pub use calls::{HeldFed, HeldOpened, NO_MODE, feed, open};
pub use form::{HeldSession, HeldSession32, carried, flag, is_set, session_of};
