// The record inside a type 6 frame (tRPC): how a frame is judged, and what its reply says.
//
// `judge` is the checks 7 to 14 and steps 1 and 2 of document 01's "From frame to answer"; of the gateway it sees the table only.
// `respond` is the reply at once, by what `judge` found, with the gateway's properties after it, and `confirm` the reply to an update
// that its device confirmed. The twelve methods are one list, in the order of their IDs.
//
// `judge` and `respond` are handed the whole table. A caller that finds the row itself judges a frame by `plan` and `judge_row`, and
// answers it by `respond_gateway` or `respond_device`, of which the two are made.
//
// `bytes`, `payload` and `encode` read and make the parts of a record; the frames of a hand-over are made of them too. No public function
// has a `requires`.
#![tactic(auto)]

pub mod bytes;
mod judging;
mod methods;
pub mod payload;
mod planning;
mod properties;
mod replies;
mod services;

pub use judging::{FrameError, Judged, RECORD_TYPE, Subject, judge};
pub use methods::{DeviceMethod, Entry, GatewayMethod, Method, OnUpdate};
pub use planning::{Planned, RowJudged, judge_row, plan};
pub use properties::Properties;
pub use replies::{Reply, Responded, confirm, encode, respond, respond_device, respond_gateway};
