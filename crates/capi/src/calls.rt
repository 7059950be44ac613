// The calls: each does what the call of `gateway`, `blocks` or `transfer` does, and its answer has numbers in place of enums.
//
// A promise cites the call's definition in specs/Calls.antt. The theorem over lists of calls (proofs/Host.antt) speaks of the same
// definitions.
ghost use Rattle.std.specs.Prelude.{◌≡◌};
ghost use Rattle.tpck.specs.Event.{is_drop};
ghost use Rattle.gateway.specs.Results.{fresh};
ghost use Rattle.capi.specs.Calls as call;

use crate::answers::{Blocked, CallAnswer, CallResult, DeviceAnswer, HeadResult};
use devices::{Field, Row};
use gateway::{Gateway, Ticked};
use updates::Line;

// A fresh gateway.
#[unsafe(no_mangle)]
pub extern "C" fn tha_fresh(firmware: u16, protocol: u16) -> Gateway
    ensures { result ≡ fresh firmware protocol }
{
    Gateway::fresh(firmware, protocol)
}

// Adds a device after the last, or refuses it.
#[unsafe(no_mangle)]
pub extern "C" fn tha_add(gateway: Gateway, row: Row) -> CallResult
    ensures { result ≡ call.add gateway row }
{
    let added = gateway.add(row);
    CallResult {
        gateway: added.gateway,
        answer: CallAnswer::of_add(added.answer),
    }
}

// Takes one byte of a line: 0 is the controller's, every other number the panel's.
#[unsafe(no_mangle)]
pub extern "C" fn tha_byte(gateway: Gateway, line: u8, byte: u8, buffer: &mut [u8]) -> CallResult
    ensures result { result ≡ (call.byte gateway line byte buffer.old).result }
    ensures buffer { buffer.new ≡ (call.byte gateway line byte buffer.old).buffer }
{
    let fed = gateway.byte(Line::of(line), byte, buffer);
    CallResult {
        gateway: fed.gateway,
        answer: CallAnswer::of_byte(fed.answer),
    }
}

// Takes a block of a line's bytes, each as `tha_byte` does; the area is for the replies, one behind the other.
#[unsafe(no_mangle)]
pub extern "C" fn tha_block(gateway: Gateway, line: u8, bytes: &[u8], area: &mut [u8]) -> Blocked
    ensures blocked { result ≡ (call.block gateway line bytes.now area.old).blocked }
    ensures area { area.new ≡ (call.block gateway line bytes.now area.old).area }
{
    Blocked::of(blocks::block(gateway, Line::of(line), bytes, area))
}

// Whether a number is that of a drop.
#[unsafe(no_mangle)]
pub extern "C" fn tha_is_drop(number: u8) -> bool
    ensures { result ≡ is_drop number }
{
    tpck::is_drop(number)
}

// Takes a turn: names a field and brings what its device answered.
#[unsafe(no_mangle)]
pub extern "C" fn tha_turn(
    gateway: Gateway,
    field: Field,
    heard: DeviceAnswer,
    buffer: &mut [u8],
) -> CallResult
    ensures result { result ≡ (call.turn gateway field heard buffer.old).result }
    ensures buffer { buffer.new ≡ (call.turn gateway field heard buffer.old).buffer }
{
    let turned = gateway.turn(field, heard.heard(), buffer);
    CallResult {
        gateway: turned.gateway,
        answer: CallAnswer::of_turn(turned.answer),
    }
}

// Lets one second pass.
#[unsafe(no_mangle)]
pub extern "C" fn tha_tick(gateway: Gateway) -> Ticked
    ensures { result ≡ call.tick gateway }
{
    gateway.tick()
}

// Reads the update to be tried next.
#[unsafe(no_mangle)]
pub extern "C" fn tha_head(gateway: Gateway) -> HeadResult
    ensures { result ≡ call.head gateway }
{
    HeadResult::of_head(gateway.head())
}

// Sets the network error, for the owner.
#[unsafe(no_mangle)]
pub extern "C" fn tha_set_network_error(gateway: Gateway, error: u16) -> Gateway
    ensures { result ≡ call.set_network_error gateway error }
{
    gateway.set_network_error(error)
}

// Has the stored date checked, for the owner.
#[unsafe(no_mangle)]
pub extern "C" fn tha_check_date(gateway: Gateway) -> Gateway
    ensures { result ≡ call.check_date gateway }
{
    gateway.check_date()
}

// Writes one frame of the gateway's hand-over, or refuses and writes nothing.
#[unsafe(no_mangle)]
pub extern "C" fn tha_hand(gateway: Gateway, place: usize, buffer: &mut [u8]) -> CallAnswer
    ensures answer { result ≡ (call.hand gateway place buffer.old).answer }
    ensures buffer { buffer.new ≡ (call.hand gateway place buffer.old).buffer }
{
    CallAnswer::of_hand(transfer::hand(gateway, place, buffer))
}

// Reads a hand-over: the gateway that it carries, or a fresh one where it is refused.
#[unsafe(no_mangle)]
pub extern "C" fn tha_read(firmware: u16, protocol: u16, count: usize, bytes: &[u8]) -> CallResult
    ensures { result ≡ call.read firmware protocol count bytes.now }
{
    let read = transfer::read(firmware, protocol, count, bytes);
    CallResult {
        gateway: read.gateway,
        answer: CallAnswer::of_read(read.answer),
    }
}

// Writes the frame of a type and data, or refuses and writes nothing.
#[unsafe(no_mangle)]
pub extern "C" fn tha_write(ptype: u8, bytes: &[u8], buffer: &mut [u8]) -> CallAnswer
    ensures answer { result ≡ (call.write ptype bytes.now buffer.old).answer }
    ensures buffer { buffer.new ≡ (call.write ptype bytes.now buffer.old).buffer }
{
    CallAnswer::of_written(tpck::write(ptype, bytes, buffer))
}
