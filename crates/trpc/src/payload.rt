// The payload of a record: the bytes of its method's fields, at most seven.
ghost use Rattle.std.specs.Prelude.{◌≡◌, ◌≤◌, [], ◌∷◌, ◌++◌, length};
ghost use Rattle.trpc.specs.Bytes.{bytes_of};
ghost use Rattle.trpc.specs.Date.{date_payload};
ghost use Rattle.trpc.specs.Payload.{packed, flag, setting_payload, in_force_payload, gateway_payload, device_payload};

use crate::bytes;
use crate::methods::{DeviceMethod, GatewayMethod};
use crate::properties::Properties;
use dates::Date;
use devices::{Row, Setting};

// The bytes, the first `len` of the places; the others are 0. An array with its length and no Vec: there is no heap, and `encode`'s promise reads the
// places past it.
#[derive(Drop)]
pub struct Payload {
    pub len: u8,
    pub bytes: [u8; 7],
}

// The payload of these bytes.
fn packed(fields: &[u8]) -> Payload
    requires { length fields.now ≤ 7 }
    ensures { result ≡ packed fields.now }
{
    let mut bytes = [0; 7];
    bytes[..fields.len()].copy_from_slice(fields);
    Payload {
        len: fields.len() as u8,
        bytes,
    }
}

// One byte.
pub fn byte(x: u8) -> Payload
    ensures { result ≡ packed (x ∷ []) }
{
    packed(&[x])
}

// A number of two bytes.
pub fn word(x: u16) -> Payload
    ensures { result ≡ packed (bytes_of 2 x) }
{
    packed(&x.to_le_bytes())
}

// A date.
pub fn date_payload(date: Date) -> Payload
    ensures { result ≡ packed (date_payload date) }
{
    let [low, high] = date.year.to_le_bytes();
    packed(&[
        low,
        high,
        date.month,
        date.day,
        date.weekday,
        date.hour,
        date.minute,
    ])
}

// An address and a byte.
pub fn device_byte(address: u16, x: u8) -> Payload
    ensures { result ≡ packed (bytes_of 2 address ++ (x ∷ [])) }
{
    let [low, high] = address.to_le_bytes();
    packed(&[low, high, x])
}

// An address and two bytes.
pub fn device_bytes(address: u16, x: u8, y: u8) -> Payload
    ensures { result ≡ packed (bytes_of 2 address ++ (x ∷ y ∷ [])) }
{
    let [low, high] = address.to_le_bytes();
    packed(&[low, high, x, y])
}

// An address and a number of four bytes.
pub fn device_long(address: u16, x: u32) -> Payload
    ensures { result ≡ packed (bytes_of 2 address ++ bytes_of 4 x) }
{
    let [low, high] = address.to_le_bytes();
    let [b0, b1, b2, b3] = x.to_le_bytes();
    packed(&[low, high, b0, b1, b2, b3])
}

// A flag as a byte. A function, since it promises the definition `flag`.
pub fn flag(x: bool) -> u8
    ensures { result ≡ flag x }
{
    u8::from(x)
}

// The payload of a method that sets a setting, with a value.
pub fn setting_payload(address: u16, setting: Setting, value: u8) -> Payload
    ensures { result ≡ packed (setting_payload address setting value) }
{
    match setting {
        Setting::Mode => device_byte(address, value),
        Setting::Cool(s) | Setting::Slab(s) | Setting::Fan(s) => device_bytes(address, s, value),
    }
}

// The same with the value in force.
fn in_force_payload(row: Row, setting: Setting) -> Payload
    ensures { result ≡ packed (in_force_payload row setting) }
{
    setting_payload(row.address, setting, row.in_force(setting))
}

// The payload of a method of the gateway, by its properties.
#[tactic(auto, unfolding(crate::specs::Payload::gateway_payload))]
pub(crate) fn gateway_payload(
    properties: Properties,
    method: GatewayMethod,
    content: &[u8],
) -> Payload
    ensures { result ≡ packed (gateway_payload properties method content.now) }
{
    match method {
        GatewayMethod::NetworkError => word(properties.error),
        GatewayMethod::ReportingEnable => byte(flag(properties.reporting)),
        GatewayMethod::FirmwareRevision => word(properties.firmware),
        GatewayMethod::ProtocolVersion => word(properties.protocol),
        GatewayMethod::DateTime => date_payload(bytes::date_in(content).valid_or(Date::none())),
    }
}

// The payload of a method of a device, by its row.
#[tactic(auto, unfolding(crate::specs::Payload::device_payload))]
pub(crate) fn device_payload(row: Row, method: DeviceMethod, content: &[u8]) -> Payload
    ensures { result ≡ packed (device_payload row method content.now) }
{
    let state = row.state_for(bytes::byte_at(content, 7));
    match method {
        DeviceMethod::DeviceAttributes => {
            let [low, high] = row.mask.to_le_bytes();
            device_bytes(row.address, low, high)
        }
        DeviceMethod::ModeSetting => in_force_payload(row, Setting::Mode),
        DeviceMethod::CoolSetpoint => in_force_payload(row, Setting::Cool(state)),
        DeviceMethod::SlabSetpoint => in_force_payload(row, Setting::Slab(state)),
        DeviceMethod::FanPercent => in_force_payload(row, Setting::Fan(state)),
        DeviceMethod::SetbackEvents => device_byte(row.address, row.events),
        DeviceMethod::DeviceVersion => device_long(row.address, row.version),
    }
}
