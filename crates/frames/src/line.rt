// The line that tells what a byte did.
ghost use Rattle.std.specs.Prelude.{◌≡◌, ◌≤◌, length, take, drop};
ghost use Rattle.text.specs.Place.{Puts};
ghost use Rattle.tpck.specs.Event.{told};
ghost use Rattle.frames.specs.Lines.{frame_line, line, line_room};

use text::Text;
use tpck::{Event, PLACES};

// Puts the line of a complete frame.
fn frame_line(text: &mut Text, offset: u64, ptype: u8, bytes: &[u8])
    ensures { Puts (frame_line offset ptype bytes.now) text.old text.new }
{
    text.put_event(offset, b"frame", u64::from(ptype));
    text.put_byte(b' ');
    text.put_decimal(bytes.len() as u64);
    text.put_bytes(bytes);
    text.put_byte(b'\n');
}

// The data of a complete frame, in the bytes of the receiver that completed it.
fn data_of(bytes: &[u8; PLACES], size: u8) -> &[u8]
    ensures { result.now ≡ take size (drop 2 bytes.now) }
{
    &bytes[2..usize::from(size) + 2]
}

// Puts the line of an event, where there is one. `bytes` are those of the receiver after it.
pub(crate) fn event_line(text: &mut Text, offset: u64, event: Event, bytes: &[u8; PLACES])
    ensures line { Puts (line offset (told event bytes.now)) text.old text.new }
    ensures short { length (line offset (told event bytes.now)) ≤ line_room }
{
    match event {
        Event::Nothing => {}
        Event::Dropped(why, taken) => {
            text.put_drop_line(offset, u64::from(why.number()), taken as u64);
        }
        Event::Frame(ptype, size) => frame_line(text, offset, ptype, data_of(bytes, size)),
    }
}
