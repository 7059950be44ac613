// The writer: one frame of the hand-over a call, named by its place.
ghost use Rattle.std.specs.Prelude.{◌≡◌, ◌+◌, ◌*◌, ◌<◌, ◌≤◌, [], length, get_or};
ghost use Rattle.lists.specs.Overlay.{overlay};
ghost use Rattle.devices.specs.Table.{rows_of};
ghost use Rattle.trpc.specs.Replies.{reply_of};
ghost use Rattle.gateway.specs.View.{view};
ghost use Rattle.gateway.specs.Reply.{room};
ghost use Rattle.transfer.specs.Contents.{contents, lines};
ghost use Rattle.transfer.specs.Hand.{hand_number, hand};

use crate::contents::content_of;
use crate::draft::Draft;
use crate::slots::slot_at;
use devices::Table;
use gateway::Gateway;
use trpc::{Properties, Reply};

// The bytes that a buffer has at least.
const ROOM: usize = 32;

// Why nothing is written.
#[derive(Drop)]
pub enum HandRefusal {
    // The buffer has under 32 bytes.
    Short,
    // An update waits.
    UpdatesWait,
}

impl HandRefusal {
    // Document 02's number. A method and no From, since its name says which number.
    pub fn number(self) -> u8
        ensures { result ≡ hand_number self }
    {
        match self {
            HandRefusal::Short => 1,
            HandRefusal::UpdatesWait => 23,
        }
    }
}

// The content of the frame at a place: five of the values, then 26 for each row.
fn content_at(properties: Properties, table: Table, place: usize) -> Reply
    requires { place < 5 + 26 * length (rows_of table) }
    ensures { result ≡ reply_of (get_or (contents properties (rows_of table)) place []) }
{
    if place < 5 {
        let row = table.at(0);
        return content_of(Draft { properties, row }, slot_at(place));
    }
    let k = place - 5;
    let row = table.at(k / 26);
    content_of(Draft { properties, row }, slot_at(5 + k % 26))
}

// Writes the frame at a place, and hands back its length; past the last nothing, and 0.
fn put_line(properties: Properties, table: Table, place: usize, buffer: &mut [u8]) -> usize
    requires { room ≤ length buffer.old }
    ensures length { result ≡ length (get_or (lines properties (rows_of table)) place []) }
    ensures buffer { buffer.new ≡ overlay (get_or (lines properties (rows_of table)) place []) buffer.old }
{
    if 5 + 26 * table.used() <= place {
        return 0;
    }
    gateway::send(content_at(properties, table, place), buffer)
}

// Writes frame number `place` of the gateway's hand-over to the front of the buffer, and hands back its length. Past the last frame
// nothing is written, and it is 0.
pub fn hand(gateway: Gateway, place: usize, buffer: &mut [u8]) -> Result<usize, HandRefusal>
    ensures answer { result ≡ (hand (view gateway) place (length buffer.old)).answer }
    ensures buffer { buffer.new ≡ overlay (hand (view gateway) place (length buffer.old)).reply buffer.old }
{
    if buffer.len() < ROOM {
        return Err(HandRefusal::Short);
    }
    if gateway.queue.head().is_some() {
        return Err(HandRefusal::UpdatesWait);
    }
    Ok(put_line(gateway.properties, gateway.table, place, buffer))
}
