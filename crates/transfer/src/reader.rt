// The reader: the gateway that the frames of a hand-over carry, or the first refusal along the bytes and a fresh gateway.
ghost use Rattle.std.specs.Prelude.{◌≡◌, ◌≤◌, take};
ghost use Rattle.lists.specs.Equal.{equal};
ghost use Rattle.transfer.specs.declared.reader.ReadRefusal.TheVariants.{Row};
ghost use Rattle.transfer.specs.Reading.{read_number, start, stepped, done, outside, frame, placed, byte, accepted, refused, read};

use crate::contents::content_of;
use crate::draft::Draft;
use crate::slots::slot_at;
use devices::{RowRefusal, Table};
use gateway::{Gateway, Receivers};
use tpck::{Event, Receiver};
use trpc::Reply;
use updates::Queue;

// The start of a frame.
const SOF: u8 = 0xCA;

// The most rows of a table.
const MOST_ROWS: usize = 32;

// The places of the list that frames stand at: five of the values, then those of a row, the last of them at 30.
const FIRST_OF_ROW: usize = 5;

const LAST_OF_ROW: usize = 30;

// Why a hand-over is refused.
#[derive(Drop)]
pub enum ReadRefusal {
    // Not the frame due, or a byte outside a frame.
    NotDue,
    // A bad row, an address that comes twice, or too many rows.
    Row(RowRefusal),
    // The bytes end early, or run on.
    Length,
}

// Why a hand-over is refused, and the place of the byte that caused it: the number of bytes where they end early, 0 where there are
// too many rows.
#[derive(Drop)]
pub struct Refused {
    pub why: ReadRefusal,
    pub at: usize,
}

// The gateway read, or a fresh one where the hand-over is refused.
#[derive(Drop)]
pub struct Handover {
    pub gateway: Gateway,
    pub answer: Result<(), Refused>,
}

// The frames so far: the receiver, the values and the row being read, the rows that are whole, and the place in the list of the
// frame due.
#[derive(Clone, Copy)]
pub struct Reader {
    pub receiver: Receiver,
    pub draft: Draft,
    pub table: Table,
    pub slot: usize,
}

impl ReadRefusal {
    // Document 02's number. A method and no From, since its name says which number.
    pub fn number(self) -> u8
        ensures { result ≡ read_number self }
    {
        match self {
            ReadRefusal::NotDue => 24,
            ReadRefusal::Row(why) => why.number(),
            ReadRefusal::Length => 25,
        }
    }
}

impl From<RowRefusal> for ReadRefusal {
    ghost from_gives = { λ why refusal. refusal ≡ Row why };

    fn from(why: RowRefusal) -> ReadRefusal {
        ReadRefusal::Row(why)
    }
}

// Whether a content is the one that a draft makes.
#[tactic(auto, using(lists::proofs::Equals::pointwise_equal))]
fn is_made(content: &[u8], made: Reply) -> bool
    requires { made.len ≤ 12 }
    ensures { result ≡ equal content.now (take made.len made.bytes) }
{
    content == &made.bytes[..made.len]
}

// Whether a byte stands outside a frame.
fn outside(receiver: Receiver, b: u8) -> bool
    ensures { result ≡ outside receiver b }
{
    !receiver.inside && b != SOF
}

impl Reader {
    // Before the first byte.
    #[tactic(auto, unfolding(crate::specs::Reading::start))]
    fn start(firmware: u16, protocol: u16) -> Reader
        ensures { result ≡ start firmware protocol }
    {
        Reader {
            receiver: Receiver::fresh(),
            draft: Draft::fresh(firmware, protocol),
            table: Table::fresh(),
            slot: 0,
        }
    }

    // Whether the last frame has ended.
    #[tactic(auto, unfolding(crate::specs::Reading::done))]
    fn done(&self, count: usize) -> bool
        ensures { result ≡ done count self.now }
    {
        self.slot == FIRST_OF_ROW && self.table.used() == count
    }

    // The frame due came: the next is due, and at a row's last frame the row is added. The reader changes in place: one that is handed
    // on at each byte is copied.
    #[tactic(auto, unfolding(crate::specs::Reading::placed))]
    fn placed(&mut self) -> Result<(), ReadRefusal>
        ensures { stepped result self.new ≡ placed self.old }
    {
        if self.slot < LAST_OF_ROW {
            self.slot += 1;
            return Ok(());
        }
        self.table = self.table.add(self.draft.row)?;
        self.slot = FIRST_OF_ROW;
        Ok(())
    }

    // A complete frame of a type, with its content.
    fn frame(&mut self, ptype: u8, content: &[u8]) -> Result<(), ReadRefusal>
        ensures { stepped result self.new ≡ frame self.old ptype content.now }
    {
        if ptype != trpc::RECORD_TYPE {
            return Err(ReadRefusal::NotDue);
        }
        let slot = slot_at(self.slot);
        let draft = self.draft.took(slot, content);
        if !is_made(content, content_of(draft, slot)) {
            return Err(ReadRefusal::NotDue);
        }
        self.draft = draft;
        self.placed()
    }

    // A byte of the hand-over of `count` rows.
    #[tactic(auto, unfolding(crate::specs::Reading::byte))]
    fn byte(&mut self, count: usize, b: u8) -> Result<(), ReadRefusal>
        ensures { stepped result self.new ≡ byte count self.old b }
    {
        if self.done(count) {
            return Err(ReadRefusal::Length);
        }
        if outside(self.receiver, b) {
            return Err(ReadRefusal::NotDue);
        }
        let received = self.receiver.receive(b);
        self.receiver = received.next;
        match received.event {
            Event::Nothing => Ok(()),
            Event::Dropped(_, _) => Err(ReadRefusal::NotDue),
            Event::Frame(ptype, size) => {
                self.frame(ptype, &received.next.bytes[2..usize::from(size) + 2])
            }
        }
    }

    // The gateway that was read.
    #[tactic(auto, unfolding(crate::specs::Reading::accepted))]
    fn accepted(self) -> Handover
        ensures { result ≡ accepted self }
    {
        Handover {
            gateway: Gateway {
                receivers: Receivers::fresh(),
                table: self.table,
                queue: Queue::fresh(),
                properties: self.draft.properties,
            },
            answer: Ok(()),
        }
    }
}

impl Handover {
    // A hand-over that is refused: a fresh gateway, with the numbers given.
    #[tactic(auto, unfolding(crate::specs::Reading::refused))]
    fn refused(firmware: u16, protocol: u16, why: ReadRefusal, at: usize) -> Handover
        ensures { result ≡ refused firmware protocol why at }
    {
        Handover {
            gateway: Gateway::fresh(firmware, protocol),
            answer: Err(Refused { why, at }),
        }
    }
}

// Reads the hand-over of `count` rows.
pub fn read(firmware: u16, protocol: u16, count: usize, bytes: &[u8]) -> Handover
    ensures { result ≡ read firmware protocol count bytes.now }
{
    if MOST_ROWS < count {
        let why = ReadRefusal::Row(RowRefusal::TableFull);
        return Handover::refused(firmware, protocol, why, 0);
    }
    let mut reader = Reader::start(firmware, protocol);
    for (i, &b) in bytes.iter().enumerate() {
        match reader.byte(count, b) {
            Ok(()) => {}
            Err(why) => return Handover::refused(firmware, protocol, why, i),
        }
    }
    if !reader.done(count) {
        return Handover::refused(firmware, protocol, ReadRefusal::Length, bytes.len());
    }
    reader.accepted()
}
