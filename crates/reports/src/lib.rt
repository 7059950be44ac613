// The minute's Reports (document 02, M-105): which are due, which is sent next, and how many remain.
//
// Due devices are kept as one mask of 32 bits for each method, bit 0 for the first row. The definitions speak of the list of due
// Reports in the order sent, and the masks hold it. What a Report's frame says, and the calls, are not there yet (docs/PORT.md). No public
// function has a `requires`.
#![tactic(auto)]

mod due;
mod masks;

pub use due::{DueReports, Report, Taken};
