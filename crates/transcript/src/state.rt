// The parts of a gateway's state as lines: receivers, properties, rows, and the updates that wait.
ghost use Rattle.std.specs.Prelude.{◌≡◌, cond};
ghost use Rattle.text.specs.Place.{Puts};
ghost use Rattle.text.specs.Texts.{texts};
ghost use Rattle.tpck.specs.Receive as receive;
ghost use Rattle.devices.specs.Table.{rows_of};
ghost use Rattle.updates.specs.Queue.{waiting};
ghost use Rattle.gateway.specs.View.{view_receivers};
ghost use Rattle.transcript.specs.State.{body_length, receiver_text, receivers_text, properties_numbers, properties_text, row_numbers, row_values_text, row_text, update_text};

use crate::fields::put_line_field;
use crate::lines::put_line;
use crate::numbers::{put_last, put_number, put_numbers};
use devices::{Row, Table};
use gateway::Receivers;
use text::{Text, take};
use tpck::Receiver;
use trpc::Properties;
use updates::{Line, Queue, Update};

// The number of bytes of the body so far; a hunting receiver has none.
fn body_length(receiver: Receiver) -> usize
    ensures { result ≡ body_length (receive.view receiver) }
{
    if receiver.inside {
        take(&receiver.bytes, receiver.len).len()
    } else {
        0
    }
}

// Puts one word or the other.
fn put_either(text: &mut Text, first: bool, one: &[u8], other: &[u8])
    ensures { Puts (cond first one.now other.now) text.old text.new }
{
    text.put(if first { one } else { other });
}

// Puts the line of a serial line's receiver.
fn put_receiver(text: &mut Text, line: Line, receiver: Receiver)
    ensures { Puts (receiver_text line (receive.view receiver)) text.old text.new }
{
    text.put(b"receiver ");
    put_line(text, line);
    put_either(text, receiver.inside, b" inside", b" hunting");
    put_either(text, receiver.escaped, b" escape", b" plain");
    put_last(text, body_length(receiver) as u64);
}

// Puts a line for each receiver.
pub(crate) fn put_receivers(text: &mut Text, receivers: Receivers)
    ensures { Puts (receivers_text (view_receivers receivers)) text.old text.new }
{
    put_receiver(text, Line::Controller, receivers.controller);
    put_receiver(text, Line::Panel, receivers.panel);
}

// The ten numbers of the properties.
fn properties_numbers(properties: Properties) -> [u64; 10]
    ensures { result ≡ properties_numbers properties }
{
    let date = properties.date;
    [
        u64::from(properties.error),
        u64::from(properties.reporting),
        u64::from(properties.firmware),
        u64::from(properties.protocol),
        u64::from(date.year),
        u64::from(date.month),
        u64::from(date.day),
        u64::from(date.weekday),
        u64::from(date.hour),
        u64::from(date.minute),
    ]
}

// Puts the line of the properties.
pub(crate) fn put_properties(text: &mut Text, properties: Properties)
    ensures { Puts (properties_text properties) text.old text.new }
{
    text.put(b"settings");
    put_numbers(text, &properties_numbers(properties));
    text.put_byte(b'\n');
}

// The six numbers of a row before its values.
fn row_numbers(row: Row) -> [u64; 6]
    ensures { result ≡ row_numbers row }
{
    [
        u64::from(row.address),
        u64::from(row.version),
        u64::from(row.mask),
        u64::from(row.mode),
        u64::from(row.state),
        u64::from(row.events),
    ]
}

// Puts the values of a row: seven each of cool, slab and fan.
fn put_row_values(text: &mut Text, row: Row)
    ensures { Puts (row_values_text row) text.old text.new }
{
    put_numbers(text, &row.cool);
    put_numbers(text, &row.slab);
    put_numbers(text, &row.fan);
}

// Puts the line of a row.
fn put_row(text: &mut Text, row: Row)
    ensures { Puts (row_text row) text.old text.new }
{
    text.put(b"row");
    put_numbers(text, &row_numbers(row));
    put_row_values(text, row);
    text.put_byte(b'\n');
}

// Puts a line for each row of the table.
pub(crate) fn put_rows(text: &mut Text, table: Table)
    ensures { Puts (texts row_text (rows_of table)) text.old text.new }
{
    for &row in take(&table.rows, table.count) {
        put_row(text, row);
    }
}

// Puts the line of an update that waits.
fn put_update(text: &mut Text, update: Update)
    ensures { Puts (update_text update) text.old text.new }
{
    text.put(b"waiting ");
    put_line_field(text, Line::of(update.line), update.field);
    put_number(text, u64::from(update.value));
    put_last(text, u64::from(update.age));
}

// Puts a line for each update that waits.
pub(crate) fn put_updates(text: &mut Text, queue: Queue)
    ensures { Puts (texts update_text (waiting queue)) text.old text.new }
{
    for &update in take(&queue.slots, queue.count) {
        put_update(text, update);
    }
}
