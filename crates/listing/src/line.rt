// The line that tells what the gateway answered to a byte.
ghost use Rattle.std.specs.Prelude.{◌≡◌, ◌≤◌, length};
ghost use Rattle.text.specs.Place.{Puts};
ghost use Rattle.listing.specs.Lines.{refusal_line, reply_line, line, line_room};

use gateway::{ByteAnswer, ByteRefusal};
use text::Text;

// The room that a reply needs.
pub(crate) const ROOM: usize = 32;

// Puts the line of a refusal.
fn refusal_line(text: &mut Text, offset: u64, why: ByteRefusal)
    ensures line { Puts (refusal_line offset why) text.old text.new }
    ensures short { length (refusal_line offset why) ≤ line_room }
{
    let number = why.number();
    if tpck::is_drop(number) {
        text.put_drop_line(offset, u64::from(number), why.body_taken() as u64);
    } else {
        text.put_event_line(offset, b"refused", u64::from(number));
    }
}

// Puts the line of a reply, whose bytes stand at the front of `reply`.
fn reply_line(text: &mut Text, offset: u64, len: usize, reply: &[u8])
    ensures { Puts (reply_line offset len reply.now) text.old text.new }
{
    text.put_event(offset, b"reply", len as u64);
    text.put_bytes(text::take(reply, len));
    text.put_byte(b'\n');
}

// Puts the line of an answer, where there is one. `reply` is the buffer that was lent for it.
pub(crate) fn answer_line(text: &mut Text, offset: u64, answer: ByteAnswer, reply: &[u8; ROOM])
    ensures line { Puts (line offset answer reply.now) text.old text.new }
    ensures short { length (line offset answer reply.now) ≤ line_room }
{
    match answer {
        ByteAnswer::Nothing => {}
        ByteAnswer::Refused(why) => refusal_line(text, offset, why),
        ByteAnswer::Queued(n) => text.put_event_line(offset, b"queued", n as u64),
        ByteAnswer::Replied(n) => reply_line(text, offset, n, reply),
    }
}
