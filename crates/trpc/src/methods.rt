// The twelve methods, an entry each, and the entry with an ID. The look-up is by the number itself, so that it copies no list.
ghost use Rattle.std.specs.Prelude.{◌≡◌, ◌+◌, eqb, length};
ghost use Rattle.trpc.specs.Methods.{entry_with, entry_of, used, used_with, has_state, too_high};

use crate::services;
use devices::Setting;

// The methods of the gateway itself: their fields have no address.
#[derive(Clone, Copy)]
pub enum GatewayMethod {
    NetworkError,
    ReportingEnable,
    FirmwareRevision,
    ProtocolVersion,
    DateTime,
}

// The methods of a device: their fields start with its address.
#[derive(Clone, Copy)]
pub enum DeviceMethod {
    DeviceAttributes,
    ModeSetting,
    CoolSetpoint,
    SlabSetpoint,
    FanPercent,
    SetbackEvents,
    DeviceVersion,
}

// A method of the list: the gateway's own, or a device's.
#[derive(Clone, Copy)]
pub enum Method {
    OfGateway(GatewayMethod),
    OfDevice(DeviceMethod),
}

// What an Update of a method does (document 01's column 'Update').
#[derive(Clone, Copy)]
pub enum OnUpdate {
    NotUsed,
    RepliesCurrent,
    SetsReporting,
    SetsDate,
    Queues,
}

// An entry of the list: the method's ID, the method, the bytes of its fields in all, whether a Request is used, and what an Update
// does.
#[derive(Clone, Copy)]
pub struct Entry {
    pub id: u32,
    pub method: Method,
    pub width: u8,
    pub request: bool,
    pub update: OnUpdate,
}

// The entries, in the order of their IDs.
const NETWORK_ERROR: Entry = Entry {
    method: Method::OfGateway(GatewayMethod::NetworkError),
    id: 0x107,
    width: 2,
    request: true,
    update: OnUpdate::RepliesCurrent,
};

const REPORTING_ENABLE: Entry = Entry {
    method: Method::OfGateway(GatewayMethod::ReportingEnable),
    id: 0x10F,
    width: 1,
    request: true,
    update: OnUpdate::SetsReporting,
};

const DEVICE_ATTRIBUTES: Entry = Entry {
    method: Method::OfDevice(DeviceMethod::DeviceAttributes),
    id: 0x11F,
    width: 4,
    request: true,
    update: OnUpdate::NotUsed,
};

const MODE_SETTING: Entry = Entry {
    method: Method::OfDevice(DeviceMethod::ModeSetting),
    id: 0x127,
    width: 3,
    request: true,
    update: OnUpdate::Queues,
};

const COOL_SETPOINT: Entry = Entry {
    method: Method::OfDevice(DeviceMethod::CoolSetpoint),
    id: 0x147,
    width: 4,
    request: true,
    update: OnUpdate::Queues,
};

const SLAB_SETPOINT: Entry = Entry {
    method: Method::OfDevice(DeviceMethod::SlabSetpoint),
    id: 0x14F,
    width: 4,
    request: true,
    update: OnUpdate::Queues,
};

const FAN_PERCENT: Entry = Entry {
    method: Method::OfDevice(DeviceMethod::FanPercent),
    id: 0x157,
    width: 4,
    request: true,
    update: OnUpdate::Queues,
};

const SETBACK_EVENTS: Entry = Entry {
    method: Method::OfDevice(DeviceMethod::SetbackEvents),
    id: 0x17F,
    width: 3,
    request: true,
    update: OnUpdate::RepliesCurrent,
};

const FIRMWARE_REVISION: Entry = Entry {
    method: Method::OfGateway(GatewayMethod::FirmwareRevision),
    id: 0x187,
    width: 2,
    request: true,
    update: OnUpdate::NotUsed,
};

const PROTOCOL_VERSION: Entry = Entry {
    method: Method::OfGateway(GatewayMethod::ProtocolVersion),
    id: 0x18F,
    width: 2,
    request: true,
    update: OnUpdate::NotUsed,
};

const DEVICE_VERSION: Entry = Entry {
    method: Method::OfDevice(DeviceMethod::DeviceVersion),
    id: 0x19F,
    width: 6,
    request: true,
    update: OnUpdate::NotUsed,
};

const DATE_TIME: Entry = Entry {
    method: Method::OfGateway(GatewayMethod::DateTime),
    id: 0x1A7,
    width: 7,
    request: false,
    update: OnUpdate::SetsDate,
};

// The entry with the ID.
#[tactic(auto, unfolding(crate::specs::Methods::entry_with, crate::specs::Methods::methods))]
pub(crate) fn entry_with(id: u32) -> Option<Entry>
    ensures { result ≡ entry_with id }
{
    match id {
        0x107 => Some(NETWORK_ERROR),
        0x10F => Some(REPORTING_ENABLE),
        0x11F => Some(DEVICE_ATTRIBUTES),
        0x127 => Some(MODE_SETTING),
        0x147 => Some(COOL_SETPOINT),
        0x14F => Some(SLAB_SETPOINT),
        0x157 => Some(FAN_PERCENT),
        0x17F => Some(SETBACK_EVENTS),
        0x187 => Some(FIRMWARE_REVISION),
        0x18F => Some(PROTOCOL_VERSION),
        0x19F => Some(DEVICE_VERSION),
        0x1A7 => Some(DATE_TIME),
        _ => None,
    }
}

// The entry of the method that sets a setting.
pub(crate) fn entry_of(setting: Setting) -> Entry
    ensures { result ≡ entry_of setting }
{
    match setting {
        Setting::Mode => MODE_SETTING,
        Setting::Cool(_) => COOL_SETPOINT,
        Setting::Slab(_) => SLAB_SETPOINT,
        Setting::Fan(_) => FAN_PERCENT,
    }
}

impl OnUpdate {
    // Whether an Update is used at all.
    fn used(self) -> bool
        ensures { result ≡ used self }
    {
        !matches!(self, OnUpdate::NotUsed)
    }
}

impl DeviceMethod {
    // Whether a state stands after the address.
    fn has_state(self) -> bool
        ensures { result ≡ has_state self }
    {
        matches!(
            self,
            DeviceMethod::CoolSetpoint | DeviceMethod::SlabSetpoint | DeviceMethod::FanPercent
        )
    }

    // Whether the byte after the address is a state, and above 7.
    pub(crate) fn too_high(self, byte: u8) -> bool
        ensures { result ≡ too_high self byte }
    {
        self.has_state() && 7 < byte
    }
}

impl Entry {
    // Whether the method is used with an accepted service.
    #[tactic(auto, unfolding(crate::specs::Methods::used_with))]
    pub(crate) fn used_with(self, service: u8) -> bool
        ensures { result ≡ used_with self service }
    {
        if services::is_update(service) {
            self.update.used()
        } else {
            self.request
        }
    }

    // Whether the content has the width of the method's fields after service and method.
    pub(crate) fn fits(self, content: &[u8]) -> bool
        ensures { result ≡ eqb (length content.now) (self.width + 5) }
    {
        content.len() == usize::from(self.width) + 5
    }
}
