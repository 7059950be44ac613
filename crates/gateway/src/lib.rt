// The gateway's side of the tHA protocol: the whole state of a gateway, by value, and every call on it.
//
// `byte` takes a byte of one of its two lines and answers it, `turn` tries the update at the head of the queue, `tick` lets a second
// pass, `head` reads what is to be tried, and `add`, `set_network_error` and `check_date` are the owner's. Each takes the gateway
// and hands back the next one. No call has a `requires`: what can't be served is refused with document 01's number and changes
// nothing that document 01 does not name.
#![tactic(auto)]

mod admission;
mod answers;
mod byte;
mod gateway;
mod lines;
mod reply;
mod turn;

pub use admission::{Admitted, admit};
pub use answers::{ByteAnswer, ByteRefusal, HeadRefusal, TurnAnswer, TurnRefusal, Waiting};
pub use byte::Fed;
pub use gateway::{Added, Gateway, Ticked};
pub use lines::Receivers;
pub use reply::send;
pub use turn::Turned;
