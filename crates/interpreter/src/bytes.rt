// The bytes of a line, all of one serial line, each with a reply buffer of its own.
#![tactic(auto, using(crate::proofs::Tellings::tells_bad, crate::proofs::Tellings::tells_good), unfolding(crate::specs::Calls::byte_call))]

ghost use Rattle.std.specs.Prelude.{◌≡◌, ◌≤◌};
ghost use Rattle.text.specs.Place.{Puts};
ghost use Rattle.script.specs.Place.{place};
ghost use Rattle.interpreter.specs.Limits.{most_lent};
ghost use Rattle.interpreter.specs.Done.{Does, Tells};
ghost use Rattle.interpreter.specs.Bytes.{byte_next, byte_said, bytes_done};
ghost use Rattle.interpreter.specs.Calls.{byte_call};

use crate::buffers::{LONGEST, MOST_LENT};
use crate::result::BadLine;
use gateway::Gateway;
use script::Cursor;
use text::{Text, take};
use updates::Line;

// One byte of a serial line, with a reply buffer of `room` bytes.
fn byte_done(gateway: &mut Gateway, on: Line, place: usize, b: u8, room: usize, text: &mut Text)
    requires { room ≤ most_lent }
    ensures next { gateway.new ≡ byte_next on room gateway.old b }
    ensures said { Puts (byte_said on room place gateway.old b) text.old text.new }
{
    let mut buffer = [0; MOST_LENT as usize];
    let reply = &mut buffer[..room];
    let fed = gateway.byte(on, b, &mut *reply);
    transcript::put_byte_answer(text, place, fed.answer, reply);
    *gateway = fed.gateway;
}

// Each byte, one after the other.
fn bytes_done(gateway: &mut Gateway, on: Line, bytes: &[u8], room: usize, text: &mut Text)
    requires { room ≤ most_lent }
    ensures { Does (bytes_done on room gateway.old bytes.now) gateway.new text.old text.new }
{
    for (place, &b) in bytes.iter().enumerate() {
        byte_done(gateway, on, place, b, room, text);
    }
}

// byte [LINE] ROOM BYTE BYTE ..
pub(crate) fn byte_call(
    gateway: &mut Gateway,
    mut words: Cursor,
    text: &mut Text,
) -> Result<(), BadLine>
    ensures { Tells (byte_call gateway.old words.entry.line.now (place words.entry)) gateway.new text.old text.new result }
{
    let on = words.read_line();
    let room = words.read_number(MOST_LENT) as usize;
    let mut bytes = [0; LONGEST];
    let Ok(count) = words.read_bytes(&mut bytes) else {
        return Err(BadLine);
    };
    bytes_done(gateway, on, take(&bytes, count), room, text);
    Ok(())
}
