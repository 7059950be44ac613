// Text in a lent buffer: bytes, numbers and the words of a line of text, for programs that print what happens on a serial line.
//
// Each method of `Text` puts one text behind what is there. What does not fit is cut off at the buffer's end, and no other byte of the
// buffer changes; every place, number and buffer is taken, also a place past the end. `take` cuts a slice, and `place_of` searches one.
#![tactic(auto)]

mod digits;
mod event;
mod place;
mod slices;

pub use place::Text;
pub use slices::{place_of, take};
