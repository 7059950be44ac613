// The lines that tell what a call answered, the state among them, and that a line is bad.
ghost use Rattle.std.specs.Prelude.{◌++◌};
ghost use Rattle.text.specs.Place.{Puts};
ghost use Rattle.devices.specs.Table.{rows_of};
ghost use Rattle.gateway.specs.View.{view};
ghost use Rattle.transcript.specs.State.{carried_text, state_text};
ghost use Rattle.transcript.specs.Answers.{last_text, frame_text, gateway_answer_text, row_answer_text, byte_answer_text, list_of, tick_answer_text, turn_reply_text, turn_answer_text, waiting_head_text, head_answer_text, error_answer_text, date_answer_text, plant_answer_text, written_text, hand_answer_text, read_answer_text, bad_line_text};

use crate::bytes::{put_byte_event, put_byte_refusal, put_byte_reply};
use crate::fields::{put_fields, put_line_field};
use crate::lines::put_line;
use crate::numbers::{put_last, put_number};
use crate::state::{put_properties, put_receivers, put_rows, put_updates};
use devices::{RowRefusal, Table};
use gateway::{ByteAnswer, Gateway, HeadRefusal, TurnAnswer, Waiting};
use text::{Text, take};
use tpck::Refusal;
use transfer::{HandRefusal, Refused};
use trpc::Properties;
use updates::{Fields, Line};

// Puts a word and a refusal's number, and ends the line.
pub(crate) fn put_refusal(text: &mut Text, word: &[u8], number: u8)
    ensures { Puts (word.now ++ last_text number) text.old text.new }
{
    text.put(word);
    put_last(text, u64::from(number));
}

// Puts the length and the first `n` bytes of a buffer, and ends the line.
pub(crate) fn put_frame(text: &mut Text, bytes: &[u8], n: usize)
    ensures { Puts (frame_text n bytes.now) text.old text.new }
{
    put_number(text, n as u64);
    text.put_bytes(take(bytes, n));
    text.put_byte(b'\n');
}

// The line of a fresh gateway.
pub fn put_gateway_answer(text: &mut Text)
    ensures { Puts gateway_answer_text text.old text.new }
{
    text.put(b"gateway\n");
}

// The line of what became of a row.
pub fn put_row_answer(text: &mut Text, answer: Result<(), RowRefusal>)
    ensures { Puts (row_answer_text answer) text.old text.new }
{
    match answer {
        Ok(()) => text.put(b"row added\n"),
        Err(why) => put_refusal(text, b"row refused", why.number()),
    }
}

// The line of what the byte at a place of the script's line did; `reply` is the reply buffer after it. A byte with no event has no
// line.
pub fn put_byte_answer(text: &mut Text, place: usize, answer: ByteAnswer, reply: &[u8])
    ensures { Puts (byte_answer_text place answer reply.now) text.old text.new }
{
    match answer {
        ByteAnswer::Nothing => {}
        ByteAnswer::Refused(why) => put_byte_refusal(text, place, why),
        ByteAnswer::Queued(n) => put_byte_event(text, place, b"queued", n as u64),
        ByteAnswer::Replied(n) => put_byte_reply(text, place, n, reply),
    }
}

// The line of the fields that a tick lists, with the tick's place in the script's line; a tick that lists none has no line.
pub fn put_tick_answer(text: &mut Text, place: u64, fields: Fields)
    ensures { Puts (tick_answer_text place (list_of fields)) text.old text.new }
{
    if let Some((&first, more)) = take(&fields.list, fields.count).split_first() {
        text.put(b"tick");
        put_number(text, place);
        text.put_byte(b' ');
        put_fields(text, first, more);
        text.put_byte(b'\n');
    }
}

// The line of a turn's reply to a serial line; its bytes stand at the front of `reply`.
fn put_turn_reply(text: &mut Text, line: Line, n: usize, reply: &[u8])
    ensures { Puts (turn_reply_text line n reply.now) text.old text.new }
{
    text.put(b"turn reply ");
    put_line(text, line);
    put_frame(text, reply, n);
}

// The line of what a turn did; `reply` is the reply buffer after it.
pub fn put_turn_answer(text: &mut Text, answer: TurnAnswer, reply: &[u8])
    ensures { Puts (turn_answer_text answer reply.now) text.old text.new }
{
    match answer {
        TurnAnswer::Refused(why) => put_refusal(text, b"turn refused", why.number()),
        TurnAnswer::Failed => text.put(b"turn failed\n"),
        TurnAnswer::Replied(line, n) => put_turn_reply(text, line, n, reply),
    }
}

// The line of an update that waits at the head.
fn put_waiting_head(text: &mut Text, head: Waiting)
    ensures { Puts (waiting_head_text head.line head.field head.value) text.old text.new }
{
    text.put(b"head ");
    put_line_field(text, head.line, head.field);
    put_last(text, u64::from(head.value));
}

// The line of the update to be tried next.
pub fn put_head_answer(text: &mut Text, answer: Result<Waiting, HeadRefusal>)
    ensures { Puts (head_answer_text answer) text.old text.new }
{
    match answer {
        Ok(head) => put_waiting_head(text, head),
        Err(why) => put_refusal(text, b"head refused", why.number()),
    }
}

// The line of a network error that is set.
pub fn put_error_answer(text: &mut Text)
    ensures { Puts error_answer_text text.old text.new }
{
    text.put(b"error\n");
}

// The line of a stored date that was checked.
pub fn put_date_answer(text: &mut Text)
    ensures { Puts date_answer_text text.old text.new }
{
    text.put(b"date\n");
}

// The line of what was planted.
pub fn put_plant_answer(text: &mut Text)
    ensures { Puts plant_answer_text text.old text.new }
{
    text.put(b"plant\n");
}

// The line of what the frame writer did; `frame` is the buffer after it.
pub fn put_written(text: &mut Text, answer: Result<usize, Refusal>, frame: &[u8])
    ensures { Puts (written_text answer frame.now) text.old text.new }
{
    match answer {
        Ok(n) => {
            text.put(b"write");
            put_frame(text, frame, n);
        }
        Err(why) => put_refusal(text, b"write refused", why.number()),
    }
}

// The line of what the writer of a hand-over did; `frame` is the buffer after it.
pub fn put_hand_answer(text: &mut Text, answer: Result<usize, HandRefusal>, frame: &[u8])
    ensures { Puts (hand_answer_text answer frame.now) text.old text.new }
{
    match answer {
        Ok(n) => {
            text.put(b"hand");
            put_frame(text, frame, n);
        }
        Err(why) => put_refusal(text, b"hand refused", why.number()),
    }
}

// The line of whether a hand-over was accepted.
pub fn put_read_answer(text: &mut Text, answer: Result<(), Refused>)
    ensures { Puts (read_answer_text answer) text.old text.new }
{
    match answer {
        Ok(()) => text.put(b"read accepted\n"),
        Err(refused) => put_refusal(text, b"read refused", refused.why.number()),
    }
}

// The lines of what a hand-over carries: the properties and the rows.
pub fn put_carried(text: &mut Text, properties: Properties, table: Table)
    ensures { Puts (carried_text properties (rows_of table)) text.old text.new }
{
    put_properties(text, properties);
    put_rows(text, table);
}

// The lines of the whole state.
pub fn put_state(text: &mut Text, gateway: Gateway)
    ensures { Puts (state_text (view gateway)) text.old text.new }
{
    put_receivers(text, gateway.receivers);
    put_carried(text, gateway.properties, gateway.table);
    put_updates(text, gateway.queue);
}

// The line of a script's line that is none of the calls.
pub fn put_bad_line(text: &mut Text, line: u64)
    ensures { Puts (bad_line_text line) text.old text.new }
{
    text.put(b"line");
    put_number(text, line);
    text.put(b" bad\n");
}
