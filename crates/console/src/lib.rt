// Programs that listen to a line of bytes and print lines of text about it: what hears the bytes, and the loop that reads and writes.
#![tactic(auto)]

mod listener;
mod running;

pub use listener::Listener;
pub use running::run;
