// The gateway for a host in C: every call of `gateway`, the block call of `blocks`, the hand-over of `transfer`, and of `tpck` the
// frame writer and which numbers are drops, by the C calling convention.
//
// A call takes the whole gateway by value and hands back the next one, as the calls of `gateway` do. Buffers are lent as a pointer
// and a length. `include/wrackpulley.h` declares all of it for C. An enum has no layout in C, so an answer is an outcome, document
// 01's number and a count here. No call has a `requires`.
#![tactic(auto)]

mod answers;
mod calls;

pub use answers::{Blocked, CallAnswer, CallResult, DeviceAnswer, HeadResult};
pub use calls::{
    tha_add, tha_block, tha_byte, tha_check_date, tha_fresh, tha_hand, tha_head, tha_is_drop,
    tha_read, tha_set_network_error, tha_tick, tha_turn, tha_write,
};
