// What the calls answer, without enums: an outcome, document 01's number where the call is refused, a line's number, and a count.
ghost use Rattle.std.specs.Prelude.{◌≡◌};
ghost use Rattle.capi.specs.Answers.{answer, replied_to, of_block, of_byte, of_turn, of_add, of_written, of_hand, of_read, of_head, heard};

use blocks::Counts;
use devices::{Field, RowRefusal};
use gateway::{ByteAnswer, Gateway, HeadRefusal, TurnAnswer, Waiting};
use tpck::Refusal;
use transfer::{HandRefusal, Refused};
use updates::Line;

// The outcomes of a call. They stay numbers, and so do a refusal and a line: they are the C interface (include/wrackpulley.h).
const NOTHING: u8 = 0;

const REFUSED: u8 = 1;

const QUEUED: u8 = 2;

const REPLIED: u8 = 3;

const FAILED: u8 = 4;

const ADDED: u8 = 5;

const WRITTEN: u8 = 6;

const READ: u8 = 7;

// What a call answers. The number is 0 where nothing is refused. The line is that of the update that a turn confirmed, else 0. The
// count is how many updates wait, or how many bytes stand in the buffer; of a drop it is how many body bytes the packet had taken,
// and of a hand-over that is refused the place of the byte that caused it.
#[repr(C)]
#[derive(Drop)]
pub struct CallAnswer {
    pub outcome: u8,
    pub number: u8,
    pub line: u8,
    pub count: usize,
}

// The gateway after a call, and its answer.
#[repr(C)]
#[derive(Drop)]
pub struct CallResult {
    pub gateway: Gateway,
    pub answer: CallAnswer,
}

// The update to be tried next. The number is 17 where none waits, else 0.
#[repr(C)]
#[derive(Drop)]
pub struct HeadResult {
    pub number: u8,
    pub line: u8,
    pub value: u8,
    pub field: Field,
}

// What a device answered to a try. The value is read only where it answered: a flag beside it, since an Option has no layout in C.
#[repr(C)]
#[derive(Drop)]
pub struct DeviceAnswer {
    pub answered: bool,
    pub value: u8,
}

// The gateway after a block. The number is 1 where the block is refused, else 0. Then how many bytes of the block were used, how
// many bytes of replies stand in the area, and what came up.
#[repr(C)]
#[derive(Drop)]
pub struct Blocked {
    pub gateway: Gateway,
    pub number: u8,
    pub used: usize,
    pub written: usize,
    pub counts: Counts,
}

impl Blocked {
    // The block call's answer, with numbers in place of its enums.
    pub(crate) fn of(done: blocks::Blocked) -> Blocked
        ensures { result ≡ of_block done }
    {
        let (number, used, written) = match done.answer {
            Ok(used) => (0, used.bytes, used.written),
            Err(e) => (e.number(), 0, 0),
        };
        Blocked {
            gateway: done.gateway,
            number,
            used,
            written,
            counts: done.counts,
        }
    }
}

// An answer of these parts.
fn answer(outcome: u8, number: u8, count: usize) -> CallAnswer
    ensures { result ≡ answer outcome number count }
{
    CallAnswer {
        outcome,
        number,
        line: 0,
        count,
    }
}

// A reply of so many bytes for a line.
fn reply_to(line: Line, count: usize) -> CallAnswer
    ensures { result ≡ replied_to line count }
{
    CallAnswer {
        outcome: REPLIED,
        number: 0,
        line: line.number(),
        count,
    }
}

impl CallAnswer {
    // The answer of a byte.
    pub(crate) fn of_byte(said: ByteAnswer) -> CallAnswer
        ensures { result ≡ of_byte said }
    {
        match said {
            ByteAnswer::Nothing => answer(NOTHING, 0, 0),
            ByteAnswer::Refused(e) => answer(REFUSED, e.number(), e.body_taken()),
            ByteAnswer::Queued(n) => answer(QUEUED, 0, n),
            ByteAnswer::Replied(n) => answer(REPLIED, 0, n),
        }
    }

    // The answer of a turn.
    pub(crate) fn of_turn(said: TurnAnswer) -> CallAnswer
        ensures { result ≡ of_turn said }
    {
        match said {
            TurnAnswer::Refused(e) => answer(REFUSED, e.number(), 0),
            TurnAnswer::Failed => answer(FAILED, 0, 0),
            TurnAnswer::Replied(line, n) => reply_to(line, n),
        }
    }

    // The answer of adding a row.
    pub(crate) fn of_add(said: Result<(), RowRefusal>) -> CallAnswer
        ensures { result ≡ of_add said }
    {
        match said {
            Ok(()) => answer(ADDED, 0, 0),
            Err(e) => answer(REFUSED, e.number(), 0),
        }
    }

    // The answer of the frame writer.
    pub(crate) fn of_written(said: Result<usize, Refusal>) -> CallAnswer
        ensures { result ≡ of_written said }
    {
        match said {
            Ok(length) => answer(WRITTEN, 0, length),
            Err(refusal) => answer(REFUSED, refusal.number(), 0),
        }
    }

    // The answer of a hand-over's writer. One function for both, with a trait for the numbers, would be no plainer: it needs an impl for
    // each refusal.
    pub(crate) fn of_hand(said: Result<usize, HandRefusal>) -> CallAnswer
        ensures { result ≡ of_hand said }
    {
        match said {
            Ok(n) => answer(WRITTEN, 0, n),
            Err(why) => answer(REFUSED, why.number(), 0),
        }
    }

    // The answer of its reader.
    pub(crate) fn of_read(said: Result<(), Refused>) -> CallAnswer
        ensures { result ≡ of_read said }
    {
        match said {
            Ok(()) => answer(READ, 0, 0),
            Err(refused) => answer(REFUSED, refused.why.number(), refused.at),
        }
    }
}

impl HeadResult {
    // The head, or its number with all else 0.
    pub(crate) fn of_head(head: Result<Waiting, HeadRefusal>) -> HeadResult
        ensures { result ≡ of_head head }
    {
        match head {
            Ok(waiting) => HeadResult {
                number: 0,
                line: waiting.line.number(),
                value: waiting.value,
                field: waiting.field,
            },
            Err(e) => HeadResult {
                number: e.number(),
                line: 0,
                value: 0,
                field: Field {
                    address: 0,
                    kind: 0,
                    state: 0,
                },
            },
        }
    }
}

impl DeviceAnswer {
    // What was heard of the device: its value, or none for silence.
    pub(crate) fn heard(self) -> Option<u8>
        ensures { result ≡ heard self }
    {
        self.answered.then_some(self.value)
    }
}
