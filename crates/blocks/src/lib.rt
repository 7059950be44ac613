// Bytes of a line in blocks (document 02, M-100): what a serial driver hands over at once.
//
// `block` takes a block of a line and a lent area for the replies. Beneath it stand `reach`, the bytes up to the next event, and
// `answer`, the answer to that event by the row of its device; a program that tells each event, as the listing does, calls these. No
// public function has a `requires`.
#![tactic(auto)]

mod answering;
mod answers;
mod counts;
mod feeding;
mod parts;
mod reaching;

pub use answering::{Answered, answer};
pub use answers::{BlockRefusal, Blocked, Used};
pub use counts::Counts;
pub use feeding::block;
pub use parts::{Moving, body_of};
pub use reaching::{Asked, Reached, reach};
