// The judgement of a frame in two parts, neither of which is handed the table: its plan by the content, the checks 7 to 12; and, where
// it is for a device, by that device's row alone, check 14 and steps 1 and 2. The search for the row between them, check 13, is the
// caller's.
ghost use Rattle.std.specs.Prelude.{◌≡◌};
ghost use Rattle.trpc.specs.Judging.{asks, asked};
ghost use Rattle.trpc.specs.Planning.{plan, at_once, row_part, judge_row};

use crate::judging::{FrameError, RECORD_TYPE};
use crate::methods::{DeviceMethod, Entry, GatewayMethod, Method};
use crate::{bytes, methods, services};
use devices::{Field, Row, Setting};

// What a frame asks for that none of 7 to 12 refuses, as far as no row decides it: its method's entry and whom it is for, the gateway
// itself or the device with this address.
#[derive(Drop)]
pub enum Planned {
    Own(Entry, GatewayMethod),
    Device(Entry, DeviceMethod, u16),
}

// The judgement, by its row, of a record for a device that 14 does not refuse: an update to be queued, or a reply at once. The entry is
// not handed back, since the caller has it from the plan.
#[derive(Drop)]
pub enum RowJudged {
    Asks(Field, u8),
    Answers,
}

// The plan of a complete frame of a type, with its data as the content: the checks 7 to 12 in their order, then whom it is for.
#[tactic(auto, unfolding(crate::specs::Planning::plan, crate::specs::Planning::plan_from, crate::specs::Judging::breaks))]
pub fn plan(ptype: u8, content: &[u8]) -> Result<Planned, FrameError>
    ensures { result ≡ plan ptype content.now }
{
    if ptype != RECORD_TYPE {
        return Err(FrameError::WrongType);
    }
    if content.len() < 5 {
        return Err(FrameError::TooShort);
    }
    if !services::accepted(bytes::byte_at(content, 0)) {
        return Err(FrameError::WrongService);
    }
    let entry = methods::entry_with(bytes::long_at(content, 1)).ok_or(FrameError::UnknownMethod)?;
    if !entry.used_with(bytes::byte_at(content, 0)) {
        return Err(FrameError::ServiceNotUsed);
    }
    if !entry.fits(content) {
        return Err(FrameError::WrongWidth);
    }
    Ok(match entry.method {
        Method::OfGateway(m) => Planned::Own(entry, m),
        Method::OfDevice(m) => Planned::Device(entry, m, bytes::word_at(content, 5)),
    })
}

// Steps 1 and 2 of a setting: asked for where it may be set, else the answer at once.
#[tactic(auto, unfolding(crate::specs::Judging::asks))]
fn asks(row: Row, setting: Setting, value: u8) -> RowJudged
    ensures { result ≡ row_part (asks at_once row setting value) }
{
    if row.settable(setting, value) {
        return RowJudged::Asks(Field::of(row.address, setting), value);
    }
    RowJudged::Answers
}

// An Update to a device, by its method.
#[tactic(auto, unfolding(crate::specs::Judging::asked))]
fn asked(row: Row, method: DeviceMethod, content: &[u8]) -> RowJudged
    ensures { result ≡ row_part (asked at_once row method content.now) }
{
    let first = bytes::byte_at(content, 7);
    let second = bytes::byte_at(content, 8);
    let state = row.state_for(first);
    match method {
        DeviceMethod::ModeSetting => asks(row, Setting::Mode, first),
        DeviceMethod::CoolSetpoint => asks(row, Setting::Cool(state), second),
        DeviceMethod::SlabSetpoint => asks(row, Setting::Slab(state), second),
        DeviceMethod::FanPercent => asks(row, Setting::Fan(state), second),
        DeviceMethod::DeviceAttributes
        | DeviceMethod::SetbackEvents
        | DeviceMethod::DeviceVersion => RowJudged::Answers,
    }
}

// The judgement of a record of a method, by the row of the device that it is for.
#[tactic(auto, unfolding(crate::specs::Planning::judge_row, crate::specs::Judging::judge_device, crate::specs::Judging::device_steps))]
pub fn judge_row(row: Row, method: DeviceMethod, content: &[u8]) -> Result<RowJudged, FrameError>
    ensures { result ≡ judge_row row method content.now }
{
    if method.too_high(bytes::byte_at(content, 7)) {
        return Err(FrameError::StateTooHigh);
    }
    if services::is_update(bytes::byte_at(content, 0)) {
        return Ok(asked(row, method, content));
    }
    Ok(RowJudged::Answers)
}
