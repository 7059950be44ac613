// A turn (document 01's turn): a try of the update at the head of the queue. The table and the queue, all it reads and changes, are lent.
ghost use Rattle.std.specs.Prelude.{◌≡◌, length};
ghost use Rattle.lists.specs.Overlay.{overlay};
ghost use Rattle.updates.specs.Queue.{waiting};
ghost use Rattle.gateway.specs.View.{view, turn_view};
ghost use Rattle.gateway.specs.Turn.{turn, check_turn};
ghost use Rattle.gateway.specs.Results.{turned, tried};

use crate::answers::{TurnAnswer, TurnRefusal};
use crate::gateway::Gateway;
use crate::reply;
use devices::{Field, Table};
use updates::{Line, Queue};

// The gateway after a turn.
#[derive(Drop)]
pub struct Turned {
    pub gateway: Gateway,
    pub answer: TurnAnswer,
}

// The checks of a turn, with a buffer of so many bytes: 1, 17, 18; and the line of the head.
#[tactic(auto, unfolding(crate::specs::Turn::check_turn, crate::specs::Turn::check_queue, devices::specs::Field::same_field))]
fn check_turn(queue: Queue, field: Field, bytes: usize) -> Result<Line, TurnRefusal>
    ensures { result ≡ check_turn (waiting queue) field bytes }
{
    if bytes < reply::ROOM {
        return Err(TurnRefusal::Short);
    }
    let head = queue.head().ok_or(TurnRefusal::NoneWaits)?;
    if field != head.field {
        return Err(TurnRefusal::NotHead);
    }
    Ok(Line::of(head.line))
}

// A turn of a table and a queue: names a field and brings the value that the device accepted, or silence. A value that is legal is stored
// and answered to the line of the head; else the head goes to the tail.
#[tactic(auto, unfolding(crate::specs::Turn::try_heard, crate::specs::Turn::try_failed, crate::specs::Turn::try_value, crate::specs::Turn::try_if, crate::specs::Turn::try_confirmed, devices::specs::Table::store_legal, lists::specs::Overlay::overlay), using(crate::proofs::Turns::turn_checked, crate::proofs::Turns::check_room, trpc::proofs::Widths::confirm_fits, crate::proofs::Replies::sent_length, crate::proofs::Replies::sent_left))]
fn turn_parts(
    table: &mut Table,
    queue: &mut Queue,
    field: Field,
    heard: Option<u8>,
    buffer: &mut [u8],
) -> TurnAnswer
    ensures parts { record { table = table.new; queue = queue.new; answer = result } ≡ tried table.old queue.old (turn (turn_view table.old queue.old) field heard (length buffer.old)) }
    ensures buffer { buffer.new ≡ overlay (turn (turn_view table.old queue.old) field heard (length buffer.old)).reply buffer.old }
{
    let line = match check_turn(*queue, field, buffer.len()) {
        Ok(line) => line,
        Err(why) => return TurnAnswer::Refused(why),
    };
    if let Some(value) = heard
        && let Some(changed) = table.store_legal(field, value)
    {
        let n = reply::send(trpc::confirm(field, value), buffer);
        *table = changed;
        *queue = queue.pop();
        return TurnAnswer::Replied(line, n);
    }
    *queue = queue.rotate();
    TurnAnswer::Failed
}

impl Gateway {
    // A turn: names a field and brings the value that the device accepted, or silence.
    #[tactic(auto, using(crate::proofs::Turns::turn_joined))]
    pub fn turn(mut self, field: Field, heard: Option<u8>, buffer: &mut [u8]) -> Turned
        ensures answer { result ≡ turned self (turn (view self) field heard (length buffer.old)) }
        ensures buffer { buffer.new ≡ overlay (turn (view self) field heard (length buffer.old)).reply buffer.old }
    {
        let answer = turn_parts(&mut self.table, &mut self.queue, field, heard, buffer);
        Turned {
            gateway: self,
            answer,
        }
    }
}
