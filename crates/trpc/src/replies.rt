// The data of a reply, at most twelve bytes: service, method, fields. To a record at once, with the properties after it, and to a
// confirmed update.
ghost use Rattle.std.specs.Prelude.{◌≡◌};
ghost use Rattle.devices.specs.Table.{rows_of};
ghost use Rattle.trpc.specs.Bytes.{byte_at};
ghost use Rattle.trpc.specs.Services.{service_of_reply};
ghost use Rattle.trpc.specs.Replies.{encode, reply_of, responded, respond_gateway, respond_device, respond, confirm};

use crate::judging::Subject;
use crate::methods::{DeviceMethod, Entry, GatewayMethod};
use crate::payload::Payload;
use crate::properties::Properties;
use crate::{bytes, methods, payload, services};
use devices::{Field, Row, Table};

// A reply's data; the places past its length are 0, as the promise of `encode` says. There is no heap, so it is an array with its length.
#[derive(Drop)]
pub struct Reply {
    pub len: usize,
    pub bytes: [u8; 12],
}

// The properties after a record, and the data of its reply.
#[derive(Drop)]
pub struct Responded {
    pub properties: Properties,
    pub reply: Reply,
}

// A record: service and method in front of the fields.
pub fn encode(service: u8, id: u32, payload: Payload) -> Reply
    ensures { result ≡ encode service id payload }
{
    let mut bytes = [0; 12];
    bytes[0] = service;
    bytes[1..5].copy_from_slice(&id.to_le_bytes());
    bytes[5..].copy_from_slice(&payload.bytes);
    Reply {
        len: usize::from(payload.len) + 5,
        bytes,
    }
}

// The reply at once of a method, with the fields.
fn answer(content: &[u8], entry: Entry, payload: Payload) -> Reply
    ensures { result ≡ encode (service_of_reply (byte_at content.now 0)) entry.id payload }
{
    let service = services::service_of_reply(bytes::byte_at(content, 0));
    encode(service, entry.id, payload)
}

// The reply of a method of the gateway.
#[tactic(auto, unfolding(crate::specs::Replies::respond_gateway), using(crate::proofs::Packing::encode_packed))]
pub fn respond_gateway(
    content: &[u8],
    entry: Entry,
    method: GatewayMethod,
    properties: Properties,
) -> Responded
    ensures { result ≡ responded (respond_gateway content.now entry method properties) }
{
    let properties = properties.after_record(entry.update, content);
    let payload = payload::gateway_payload(properties, method, content);
    Responded {
        properties,
        reply: answer(content, entry, payload),
    }
}

// The reply of a method of a device, by its row.
#[tactic(auto, unfolding(crate::specs::Replies::respond_device), using(crate::proofs::Packing::encode_packed))]
pub fn respond_device(
    content: &[u8],
    entry: Entry,
    method: DeviceMethod,
    properties: Properties,
    row: Row,
) -> Responded
    ensures { result ≡ responded (respond_device content.now entry method properties row) }
{
    let payload = payload::device_payload(row, method, content);
    Responded {
        properties,
        reply: answer(content, entry, payload),
    }
}

// The reply at once to a record that passed the checks, by what they found, and the properties after it.
#[tactic(auto, unfolding(crate::specs::Replies::respond))]
pub fn respond(
    content: &[u8],
    entry: Entry,
    subject: Subject,
    properties: Properties,
    table: Table,
) -> Responded
    ensures { result ≡ responded (respond content.now entry subject properties (rows_of table)) }
{
    match subject {
        Subject::Own(m) => respond_gateway(content, entry, m, properties),
        Subject::Device(m, at) => respond_device(content, entry, m, properties, table.at(at)),
    }
}

// The reply to an update of the field that the device confirmed with the value.
#[tactic(auto, unfolding(crate::specs::Replies::confirm), using(crate::proofs::Packing::encode_packed))]
pub fn confirm(field: Field, value: u8) -> Reply
    ensures { result ≡ reply_of (confirm field value) }
{
    let setting = field.setting();
    let payload = payload::setting_payload(field.address, setting, value);
    encode(
        services::RESPONSE_UPDATE,
        methods::entry_of(setting).id,
        payload,
    )
}
