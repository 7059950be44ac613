// One call a line: the arguments are read whole, and only where all are good is the call made and its answer put.
#![tactic(auto, using(crate::proofs::Tellings::tells_bad, crate::proofs::Tellings::tells_good), unfolding(crate::specs::Calls::gateway_call, crate::specs::Calls::row_call, crate::specs::Calls::turn_call, crate::specs::Calls::head_call, crate::specs::Calls::error_call, crate::specs::Calls::write_call, crate::specs::Calls::dump_call))]

ghost use Rattle.std.specs.Prelude.{◌≤◌};
ghost use Rattle.text.specs.Place.{Puts};
ghost use Rattle.script.specs.Place.{place};
ghost use Rattle.interpreter.specs.Limits.{most_lent};
ghost use Rattle.interpreter.specs.Done.{Does, Tells};
ghost use Rattle.interpreter.specs.Calls.{gateway_call, row_call, turn_done, turn_call, head_call, error_call, write_said, write_call, dump_call};

use crate::buffers::{LONGEST, MOST_LENT};
use crate::result::{BadLine, end};
use devices::Field;
use gateway::Gateway;
use script::Cursor;
use text::{Text, take};

// gateway FIRMWARE PROTOCOL
pub(crate) fn gateway_call(
    gateway: &mut Gateway,
    mut words: Cursor,
    text: &mut Text,
) -> Result<(), BadLine>
    ensures { Tells (gateway_call gateway.old words.entry.line.now (place words.entry)) gateway.new text.old text.new result }
{
    let firmware = words.read_u16();
    let protocol = words.read_u16();
    end(words)?;
    *gateway = Gateway::fresh(firmware, protocol);
    transcript::put_gateway_answer(text);
    Ok(())
}

// row and its 27 numbers
pub(crate) fn row_call(
    gateway: &mut Gateway,
    mut words: Cursor,
    text: &mut Text,
) -> Result<(), BadLine>
    ensures { Tells (row_call gateway.old words.entry.line.now (place words.entry)) gateway.new text.old text.new result }
{
    let row = words.read_row();
    end(words)?;
    let added = gateway.add(row);
    *gateway = added.gateway;
    transcript::put_row_answer(text, added.answer);
    Ok(())
}

// A turn with a reply buffer of `room` bytes.
fn turn_done(gateway: &mut Gateway, field: Field, heard: Option<u8>, room: usize, text: &mut Text)
    requires { room ≤ most_lent }
    ensures { Does (turn_done room gateway.old field heard) gateway.new text.old text.new }
{
    let mut buffer = [0; MOST_LENT as usize];
    let reply = &mut buffer[..room];
    let turned = gateway.turn(field, heard, &mut *reply);
    transcript::put_turn_answer(text, turned.answer, reply);
    *gateway = turned.gateway;
}

// turn ROOM FIELD silence, turn ROOM FIELD VALUE
pub(crate) fn turn_call(
    gateway: &mut Gateway,
    mut words: Cursor,
    text: &mut Text,
) -> Result<(), BadLine>
    ensures { Tells (turn_call gateway.old words.entry.line.now (place words.entry)) gateway.new text.old text.new result }
{
    let room = words.read_number(MOST_LENT) as usize;
    let field = words.read_field();
    let heard = words.read_heard();
    end(words)?;
    turn_done(gateway, field, heard, room, text);
    Ok(())
}

// head
pub(crate) fn head_call(
    gateway: &mut Gateway,
    words: Cursor,
    text: &mut Text,
) -> Result<(), BadLine>
    ensures { Tells (head_call gateway.old words.entry.line.now (place words.entry)) gateway.new text.old text.new result }
{
    end(words)?;
    transcript::put_head_answer(text, gateway.head());
    Ok(())
}

// error NUMBER
pub(crate) fn error_call(
    gateway: &mut Gateway,
    mut words: Cursor,
    text: &mut Text,
) -> Result<(), BadLine>
    ensures { Tells (error_call gateway.old words.entry.line.now (place words.entry)) gateway.new text.old text.new result }
{
    let error = words.read_u16();
    end(words)?;
    *gateway = gateway.set_network_error(error);
    transcript::put_error_answer(text);
    Ok(())
}

// The frame writer alone, with a buffer of `room` bytes.
fn write_said(ptype: u8, bytes: &[u8], room: usize, text: &mut Text)
    requires { room ≤ most_lent }
    ensures { Puts (write_said room ptype bytes.now) text.old text.new }
{
    let mut buffer = [0; MOST_LENT as usize];
    let frame = &mut buffer[..room];
    let answer = tpck::write(ptype, bytes, &mut *frame);
    transcript::put_written(text, answer, frame);
}

// write ROOM TYPE BYTE BYTE ..
pub(crate) fn write_call(
    gateway: &mut Gateway,
    mut words: Cursor,
    text: &mut Text,
) -> Result<(), BadLine>
    ensures { Tells (write_call gateway.old words.entry.line.now (place words.entry)) gateway.new text.old text.new result }
{
    let room = words.read_number(MOST_LENT) as usize;
    let ptype = words.read_u8();
    let mut bytes = [0; LONGEST];
    let Ok(count) = words.read_bytes(&mut bytes) else {
        return Err(BadLine);
    };
    write_said(ptype, take(&bytes, count), room, text);
    Ok(())
}

// dump
pub(crate) fn dump_call(
    gateway: &mut Gateway,
    words: Cursor,
    text: &mut Text,
) -> Result<(), BadLine>
    ensures { Tells (dump_call gateway.old words.entry.line.now (place words.entry)) gateway.new text.old text.new result }
{
    end(words)?;
    transcript::put_state(text, *gateway);
    Ok(())
}
