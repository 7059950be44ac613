// The values and the row that are being read: what a frame's content makes of them.
ghost use Rattle.std.specs.Prelude.{◌≡◌};
ghost use Rattle.transfer.specs.Carry.{value_in, took_value, took_part, took, fresh_draft};

use crate::slots::{Item, Part, Slot};
use dates::Date;
use devices::{Row, Setting};
use trpc::{GatewayMethod, Properties, bytes};

// The values of a gateway, and one row.
#[derive(Clone, Copy)]
pub struct Draft {
    pub properties: Properties,
    pub row: Row,
}

// The value of a setting, after the address and, where the setting has one, the state.
fn value_in(setting: Setting, content: &[u8]) -> u8
    ensures { result ≡ value_in setting content.now }
{
    match setting {
        Setting::Mode => bytes::byte_at(content, 7),
        Setting::Cool(_) | Setting::Slab(_) | Setting::Fan(_) => bytes::byte_at(content, 8),
    }
}

// The properties with the value that a content carries.
#[tactic(auto, unfolding(crate::specs::Carry::took_value))]
fn took_value(properties: Properties, method: GatewayMethod, content: &[u8]) -> Properties
    ensures { result ≡ took_value properties method content.now }
{
    match method {
        GatewayMethod::NetworkError => Properties {
            error: bytes::word_at(content, 5),
            ..properties
        },
        GatewayMethod::ReportingEnable => Properties {
            reporting: bytes::byte_at(content, 5) == 1,
            ..properties
        },
        GatewayMethod::FirmwareRevision => Properties {
            firmware: bytes::word_at(content, 5),
            ..properties
        },
        GatewayMethod::ProtocolVersion => Properties {
            protocol: bytes::word_at(content, 5),
            ..properties
        },
        GatewayMethod::DateTime => Properties {
            date: bytes::date_in(content).valid_or(Date::none()),
            ..properties
        },
    }
}

// The row with the value that a content carries; the first frame starts the row.
#[tactic(auto, unfolding(crate::specs::Carry::took_part))]
fn took_part(row: Row, part: Part, content: &[u8]) -> Row
    ensures { result ≡ took_part row part content.now }
{
    match part {
        Part::Attributes => Row {
            address: bytes::word_at(content, 5),
            mask: bytes::word_at(content, 7),
            ..Row::blank()
        },
        Part::Version => Row {
            version: bytes::long_at(content, 7),
            ..row
        },
        Part::State => Row {
            state: bytes::byte_at(content, 7),
            ..row
        },
        Part::Events => Row {
            events: bytes::byte_at(content, 7),
            ..row
        },
        Part::Value(setting) => row.with_value(setting, value_in(setting, content)),
    }
}

impl Draft {
    // Before the first frame.
    #[tactic(auto, unfolding(crate::specs::Carry::fresh_draft))]
    pub(crate) fn fresh(firmware: u16, protocol: u16) -> Draft
        ensures { result ≡ fresh_draft firmware protocol }
    {
        Draft {
            properties: Properties::fresh(firmware, protocol),
            row: Row::blank(),
        }
    }

    // The draft with what a content carries at a place of the list.
    #[tactic(auto, unfolding(crate::specs::Carry::took))]
    pub(crate) fn took(self, slot: Slot, content: &[u8]) -> Draft
        ensures { result ≡ took self slot.item content.now }
    {
        match slot.item {
            Item::OfGateway(method) => Draft {
                properties: took_value(self.properties, method, content),
                ..self
            },
            Item::OfRow(part) => Draft {
                row: took_part(self.row, part, content),
                ..self
            },
        }
    }
}
