// Dates and times: the fields of DateTime, and which dates there are by the Gregorian calendar.
//
// A date is valid or not (document 01, "DateTime"; document 02, M-101); the weekday is not compared with the day. No public function
// has a `requires`.
#![tactic(auto)]

mod calendar;
mod date;

pub use date::Date;
