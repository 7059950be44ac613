// The devices of the gateway: their fields, their rows, and the table of rows.
//
// A field is one setting of one device, a row is what the gateway knows of a device, and the table
// holds the rows in the order added (document 01, "Devices"). No public function has a `requires`.
#![tactic(auto)]

mod field;
mod row;
mod table;

pub use field::{Field, Setting};
pub use row::Row;
pub use table::{RowRefusal, Table, find_address};
