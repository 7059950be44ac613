// What a complete frame is judged: the checks 7 to 14, then steps 1 and 2 of an Update that is queued. What the checks find, the
// method's entry and the place of the device's row, is handed on. It goes by the frame's plan, then by the row.
ghost use Rattle.std.specs.Prelude.{◌≡◌};
ghost use Rattle.devices.specs.Table.{rows_of, find};
ghost use Rattle.trpc.specs.Judging.{number_of, judge};
ghost use Rattle.trpc.specs.Planning.{judged_at};

use crate::methods::{DeviceMethod, Entry, GatewayMethod};
use crate::planning;
use crate::planning::{Planned, RowJudged};
use devices::{Field, Table};

// The type of a frame that holds a record.
pub const RECORD_TYPE: u8 = 6;

// The checks of a frame, in their order.
#[derive(Clone, Copy)]
pub enum FrameError {
    WrongType,
    TooShort,
    WrongService,
    UnknownMethod,
    ServiceNotUsed,
    WrongWidth,
    UnknownAddress,
    StateTooHigh,
}

// Whom a record is for, with its method: the gateway itself, or the device whose row stands at this place of the table.
#[derive(Drop)]
pub enum Subject {
    Own(GatewayMethod),
    Device(DeviceMethod, usize),
}

// The judgement of a frame that no check refuses: an update to be queued, or a reply at once, by the entry and the subject that were
// found.
#[derive(Drop)]
pub enum Judged {
    Asks(Field, u8),
    Answers(Entry, Subject),
}

impl FrameError {
    // Document 01's number. A method and no From, since its name says which number.
    pub fn number(self) -> u8
        ensures { result ≡ number_of self }
    {
        match self {
            FrameError::WrongType => 7,
            FrameError::TooShort => 8,
            FrameError::WrongService => 9,
            FrameError::UnknownMethod => 10,
            FrameError::ServiceNotUsed => 11,
            FrameError::WrongWidth => 12,
            FrameError::UnknownAddress => 13,
            FrameError::StateTooHigh => 14,
        }
    }
}

// Check 13 of a record for the device at an address; then its judgement by the row found.
fn judge_device(
    entry: Entry,
    method: DeviceMethod,
    address: u16,
    content: &[u8],
    table: Table,
) -> Result<Judged, FrameError>
    ensures { result ≡ judged_at entry method content.now (rows_of table) (find (rows_of table) address) }
{
    let at = table.find(address).ok_or(FrameError::UnknownAddress)?;
    Ok(match planning::judge_row(table.at(at), method, content)? {
        RowJudged::Asks(field, value) => Judged::Asks(field, value),
        RowJudged::Answers => Judged::Answers(entry, Subject::Device(method, at)),
    })
}

// The judgement of a complete frame of a type, with its data as the content, by a table.
#[tactic(auto, using(crate::proofs::Plans::judge_planned))]
pub fn judge(ptype: u8, content: &[u8], table: Table) -> Result<Judged, FrameError>
    ensures { result ≡ judge ptype content.now (rows_of table) }
{
    match planning::plan(ptype, content)? {
        Planned::Own(entry, m) => Ok(Judged::Answers(entry, Subject::Own(m))),
        Planned::Device(entry, m, address) => judge_device(entry, m, address, content, table),
    }
}
