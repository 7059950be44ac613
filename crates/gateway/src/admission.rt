// Steps 3 and 4 of an Update that passed the checks: 15, 16, or queued.
ghost use Rattle.std.specs.Prelude.{◌≡◌};
ghost use Rattle.updates.specs.Queue.{waiting};
ghost use Rattle.gateway.specs.Byte.{admit};
ghost use Rattle.gateway.specs.Results.{admitted};

use crate::answers::{ByteAnswer, ByteRefusal};
use devices::Field;
use updates::{Line, Queue, Update};

// The queue after an update was asked for, and the answer.
#[derive(Drop)]
pub struct Admitted {
    pub queue: Queue,
    pub answer: ByteAnswer,
}

// An update of a field that a byte of the line asks for: refused where one of the field waits, or the line has no place left; else
// queued at the tail.
#[tactic(auto, unfolding(crate::specs::Byte::admit, crate::specs::Byte::admit_if, crate::specs::Byte::enqueue))]
pub fn admit(queue: Queue, line: Line, field: Field, value: u8) -> Admitted
    ensures { result ≡ admitted queue (admit (waiting queue) line field value) }
{
    if queue.waits(field) {
        return Admitted {
            queue,
            answer: ByteAnswer::Refused(ByteRefusal::FieldWaits),
        };
    }
    let pushed = queue.push(Update {
        line: line.number(),
        field,
        value,
        age: 0,
    });
    Admitted {
        queue: pushed.queue,
        answer: match pushed.answer {
            Ok(n) => ByteAnswer::Queued(n),
            Err(_) => ByteAnswer::Refused(ByteRefusal::QueueFull),
        },
    }
}
