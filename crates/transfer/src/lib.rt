// The hand-over of a gateway to the next build (document 02, M-112): its values and rows as published frames.
//
// `hand` writes them, one frame a call, and `read` takes them all and gives the gateway that they carry. The frames are one list
// for both sides, and one encoder makes a frame's content. No public function has a `requires`.
#![tactic(auto)]

mod contents;
mod draft;
mod reader;
mod slots;
mod writer;

pub use reader::{Handover, ReadRefusal, Refused, read};
pub use writer::{HandRefusal, hand};
