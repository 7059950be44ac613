// The content of a frame of the hand-over: service, method, payload.
ghost use Rattle.std.specs.Prelude.{◌≡◌};
ghost use Rattle.trpc.specs.Payload.{packed};
ghost use Rattle.trpc.specs.Replies.{reply_of};
ghost use Rattle.transfer.specs.Contents.{value_payload, part_payload, payload_of, content_of};

use crate::draft::Draft;
use crate::slots::{Item, Part, Slot};
use dates::Date;
use devices::Row;
use trpc::payload::Payload;
use trpc::{GatewayMethod, Properties, Reply, payload};

// The payload of a value of the gateway; a date that is not valid goes as NA.
#[tactic(auto, unfolding(crate::specs::Contents::value_payload))]
fn value_payload(properties: Properties, method: GatewayMethod) -> Payload
    ensures { result ≡ packed (value_payload properties method) }
{
    match method {
        GatewayMethod::NetworkError => payload::word(properties.error),
        GatewayMethod::ReportingEnable => payload::byte(payload::flag(properties.reporting)),
        GatewayMethod::FirmwareRevision => payload::word(properties.firmware),
        GatewayMethod::ProtocolVersion => payload::word(properties.protocol),
        GatewayMethod::DateTime => payload::date_payload(properties.date.valid_or(Date::none())),
    }
}

// The payload of a part of a row: the values as they are stored, also where the device lacks the setting.
#[tactic(auto, unfolding(crate::specs::Contents::part_payload))]
fn part_payload(row: Row, part: Part) -> Payload
    ensures { result ≡ packed (part_payload row part) }
{
    match part {
        Part::Attributes => {
            let [low, high] = row.mask.to_le_bytes();
            payload::device_bytes(row.address, low, high)
        }
        Part::Version => payload::device_long(row.address, row.version),
        Part::State => payload::device_byte(row.address, row.state),
        Part::Events => payload::device_byte(row.address, row.events),
        Part::Value(setting) => payload::setting_payload(row.address, setting, row.stored(setting)),
    }
}

// The payload of either.
#[tactic(auto, unfolding(crate::specs::Contents::payload_of))]
fn payload_of(draft: Draft, item: Item) -> Payload
    ensures { result ≡ packed (payload_of draft item) }
{
    match item {
        Item::OfGateway(method) => value_payload(draft.properties, method),
        Item::OfRow(part) => part_payload(draft.row, part),
    }
}

// The content of the frame at a place of the list.
pub(crate) fn content_of(draft: Draft, slot: Slot) -> Reply
    ensures { result ≡ reply_of (content_of draft slot) }
{
    trpc::encode(slot.service, slot.id, payload_of(draft, slot.item))
}
