// The packet layer of the tHA protocol (000: tpck): a receiver for one line, by value or with its body lent, and a frame writer.
//
// `Receiver::receive` takes one byte of the line and hands back the next receiver and what the byte did; `scan` takes bytes up to and
// with the first that does something, of a receiver whose body is lent; `write` puts a frame into a lent buffer; `is_drop` tells the
// numbers of drops from others. All answer every input: there is no receiver, byte, data or buffer that a caller has to check first.
#![tactic(auto)]

mod checksum;
mod control;
mod event;
mod receiver;
mod values;
mod writer;

pub use control::{Control, Scanned, scan};
pub use event::{Drop, Event, is_drop};
pub use receiver::{Received, Receiver};
pub use values::PLACES;
pub use writer::{Refusal, write};
