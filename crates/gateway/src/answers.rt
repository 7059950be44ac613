// What the calls answer, and document 01's number of each refusal.
ghost use Rattle.std.specs.Prelude.{◌≡◌};
ghost use Rattle.gateway.specs.Answers.{byte_number, turn_number, head_number, body_taken};

use devices::Field;
use tpck::Drop;
use trpc::FrameError;
use updates::Line;

// Why a byte is refused.
#[derive(Clone, Copy)]
pub enum ByteRefusal {
    // The reply buffer has fewer than 32 bytes.
    Short,
    // A packet is dropped: why, and how many body bytes it had taken since its SOF.
    Dropped(Drop, usize),
    // A frame breaks a check.
    Rejected(FrameError),
    // An update of the field waits already.
    FieldWaits,
    // Eight updates of the line wait.
    QueueFull,
}

// What a byte did. It is no Result: a refusal is one of four outcomes, as a host in C reads them.
#[derive(Clone, Copy)]
pub enum ByteAnswer {
    Nothing,
    Refused(ByteRefusal),
    // An update is queued: the number of both lines that now wait.
    Queued(usize),
    // A reply stands at the front of the buffer: its length.
    Replied(usize),
}

// Why a turn is refused.
#[derive(Drop)]
pub enum TurnRefusal {
    // The reply buffer has fewer than 32 bytes.
    Short,
    // No update waits.
    NoneWaits,
    // The field is not the head's.
    NotHead,
}

// What a turn did: one of three outcomes and no Result, as with a byte.
#[derive(Drop)]
pub enum TurnAnswer {
    Refused(TurnRefusal),
    // The try failed: the update is at the tail.
    Failed,
    // The update is confirmed; its reply stands at the front of the buffer: the line that it is for, and its length.
    Replied(Line, usize),
}

// The update to be tried next: its line, its field and the value asked for.
#[derive(Clone, Copy)]
pub struct Waiting {
    pub line: Line,
    pub field: Field,
    pub value: u8,
}

// Why there is no update to be tried.
#[derive(Clone, Copy)]
pub enum HeadRefusal {
    NoneWaits,
}

impl ByteRefusal {
    // Document 01's number. A method and no From, since its name says which number.
    pub fn number(self) -> u8
        ensures { result ≡ byte_number self }
    {
        match self {
            ByteRefusal::Short => 1,
            ByteRefusal::Dropped(d, _) => d.number(),
            ByteRefusal::Rejected(e) => e.number(),
            ByteRefusal::FieldWaits => 15,
            ByteRefusal::QueueFull => 16,
        }
    }

    // The number of body bytes that the dropped packet had taken; 0 where none is dropped.
    pub fn body_taken(self) -> usize
        ensures { result ≡ body_taken self }
    {
        match self {
            ByteRefusal::Dropped(_, taken) => taken,
            ByteRefusal::Short
            | ByteRefusal::Rejected(_)
            | ByteRefusal::FieldWaits
            | ByteRefusal::QueueFull => 0,
        }
    }
}

impl TurnRefusal {
    // Document 01's number. A method and no From, since its name says which number.
    pub fn number(self) -> u8
        ensures { result ≡ turn_number self }
    {
        match self {
            TurnRefusal::Short => 1,
            TurnRefusal::NoneWaits => 17,
            TurnRefusal::NotHead => 18,
        }
    }
}

impl HeadRefusal {
    // Document 01's number. A method and no From, since its name says which number.
    pub fn number(self) -> u8
        ensures { result ≡ head_number self }
    {
        match self {
            HeadRefusal::NoneWaits => 17,
        }
    }
}
