// The lines of a byte's events: a refusal, an update that is queued, a reply.
ghost use Rattle.text.specs.Place.{Puts};
ghost use Rattle.transcript.specs.Answers.{byte_event_text, byte_drop_text, byte_refusal_text, byte_reply_text};

use gateway::ByteRefusal;
use text::{Text, take};

// The line of an event of nothing but a word and a number.
pub(crate) fn put_byte_event(text: &mut Text, place: usize, word: &[u8], n: u64)
    ensures { Puts (byte_event_text place word.now n) text.old text.new }
{
    text.put(b"byte ");
    text.put_event_line(place as u64, word, n);
}

// The line of a drop.
fn put_byte_drop(text: &mut Text, place: usize, number: u8, taken: usize)
    ensures { Puts (byte_drop_text place number taken) text.old text.new }
{
    text.put(b"byte ");
    text.put_drop_line(place as u64, u64::from(number), taken as u64);
}

// The line of a refusal.
pub(crate) fn put_byte_refusal(text: &mut Text, place: usize, why: ByteRefusal)
    ensures { Puts (byte_refusal_text place why) text.old text.new }
{
    let number = why.number();
    if tpck::is_drop(number) {
        put_byte_drop(text, place, number, why.body_taken());
    } else {
        put_byte_event(text, place, b"refused", u64::from(number));
    }
}

// The line of a reply, whose bytes stand at the front of `reply`.
pub(crate) fn put_byte_reply(text: &mut Text, place: usize, n: usize, reply: &[u8])
    ensures { Puts (byte_reply_text place n reply.now) text.old text.new }
{
    text.put(b"byte ");
    text.put_event(place as u64, b"reply", n as u64);
    text.put_bytes(take(reply, n));
    text.put_byte(b'\n');
}
