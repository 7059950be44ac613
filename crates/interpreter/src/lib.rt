// Runs one line of a script of calls on a gateway: reads its words, makes the call, and puts the text of what it answers.
// docs/REPLAY.md has the lines and the answers.
//
// Every gateway, line, store and buffer is taken. A bad line changes nothing and has no text.
#![tactic(auto)]

mod block;
mod buffers;
mod bytes;
mod calls;
mod date;
mod handing;
mod keeping;
mod line;
mod result;
mod ticks;

pub use buffers::{LONGEST, MOST_KEPT};
pub use keeping::Kept;
pub use line::run_line;
pub use result::BadLine;
