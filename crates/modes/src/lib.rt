// Sessions over AES: open one, feed it, and it comes back moved.
#![tactic(auto)]

mod session;
mod work;

pub use session::{Fed, Opened, Session};
