// What `replay` prints: the text of each answer, and of the state, put into a lent buffer.
//
// Each function puts one text behind what is there, as the methods of the library `text` do: what does not fit is cut off at the
// buffer's end. docs/REPLAY.md has the lines.
#![tactic(auto)]

mod answers;
mod bytes;
mod fields;
mod lines;
mod numbers;
mod state;
mod tallies;

pub use answers::{
    put_bad_line, put_byte_answer, put_carried, put_date_answer, put_error_answer,
    put_gateway_answer, put_hand_answer, put_head_answer, put_plant_answer, put_read_answer,
    put_row_answer, put_state, put_tick_answer, put_turn_answer, put_written,
};
pub use tallies::put_block_answer;
