// The frames of a hand-over in their order: five of the gateway's values, then 26 for each row. SetbackState stands here and not
// in the list of the line's methods.
ghost use Rattle.std.specs.Prelude.{◌≡◌, ◌<◌, ◌+◌};
ghost use Rattle.trpc.specs.Services.{response_request};
ghost use Rattle.transfer.specs.declared.slots.Item.TheVariants.{OfGateway, OfRow};
ghost use Rattle.transfer.specs.Slots.{slot, slot_at};

use devices::Setting;
use trpc::GatewayMethod;

// What a frame of a row carries behind the address.
#[derive(Clone, Copy)]
pub enum Part {
    Attributes,
    Version,
    State,
    Events,
    Value(Setting),
}

// What a frame carries: a value of the gateway, or a part of a row.
#[derive(Clone, Copy)]
pub enum Item {
    OfGateway(GatewayMethod),
    OfRow(Part),
}

// A frame of the list: its service, its method's ID, and what it carries.
#[derive(Clone, Copy)]
pub struct Slot {
    pub service: u8,
    pub id: u32,
    pub item: Item,
}

// The services, by the numbers that go on the line, as in `trpc`, which keeps its own to itself: Response:Update, for the date,
const RESPONSE_UPDATE: u8 = 3;

// and Response:Request, for all others.
const RESPONSE_REQUEST: u8 = 4;

// A frame of a value of the gateway.
fn of_gateway(service: u8, id: u32, method: GatewayMethod) -> Slot
    ensures { result ≡ slot service id (OfGateway method) }
{
    Slot {
        service,
        id,
        item: Item::OfGateway(method),
    }
}

// A frame of a row.
fn of_row(id: u32, part: Part) -> Slot
    ensures { result ≡ slot response_request id (OfRow part) }
{
    Slot {
        service: RESPONSE_REQUEST,
        id,
        item: Item::OfRow(part),
    }
}

// A frame of a value for a state: cool, slab and fan of state 0, then those of state 1, and so on.
fn state_slot(k: usize) -> Slot
    requires { k < 21 }
    ensures { result ≡ slot_at (10 + k) }
{
    let state = (k / 3) as u8;
    match k % 3 {
        0 => of_row(0x147, Part::Value(Setting::Cool(state))),
        1 => of_row(0x14F, Part::Value(Setting::Slab(state))),
        _ => of_row(0x157, Part::Value(Setting::Fan(state))),
    }
}

// The frame at a place of the list; past the last the first. It is made by its number, so that no list is copied.
#[tactic(auto, unfolding(crate::specs::Slots::slot_at, crate::specs::Slots::slots, crate::specs::Slots::value_slots, crate::specs::Slots::row_slots))]
pub(crate) fn slot_at(i: usize) -> Slot
    ensures { result ≡ slot_at i }
{
    match i {
        0 => of_gateway(RESPONSE_REQUEST, 0x107, GatewayMethod::NetworkError),
        1 => of_gateway(RESPONSE_REQUEST, 0x10F, GatewayMethod::ReportingEnable),
        2 => of_gateway(RESPONSE_REQUEST, 0x187, GatewayMethod::FirmwareRevision),
        3 => of_gateway(RESPONSE_REQUEST, 0x18F, GatewayMethod::ProtocolVersion),
        4 => of_gateway(RESPONSE_UPDATE, 0x1A7, GatewayMethod::DateTime),
        5 => of_row(0x11F, Part::Attributes),
        6 => of_row(0x19F, Part::Version),
        7 => of_row(0x177, Part::State),
        8 => of_row(0x17F, Part::Events),
        9 => of_row(0x127, Part::Value(Setting::Mode)),
        10..=30 => state_slot(i - 10),
        _ => of_gateway(RESPONSE_REQUEST, 0x107, GatewayMethod::NetworkError),
    }
}
