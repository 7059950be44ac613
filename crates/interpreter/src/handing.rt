// The lines of a hand-over: one frame of the gateway's own, and a gateway that is read.
#![tactic(auto, using(crate::proofs::Tellings::tells_bad, crate::proofs::Tellings::tells_good), unfolding(crate::specs::Calls::hand_call))]

ghost use Rattle.std.specs.Prelude.{◌≤◌, length};
ghost use Rattle.text.specs.Place.{Puts};
ghost use Rattle.transfer.specs.Reading.{read};
ghost use Rattle.script.specs.Place.{place};
ghost use Rattle.interpreter.specs.Limits.{most_lent};
ghost use Rattle.interpreter.specs.Done.{Does, Tells, Runs};
ghost use Rattle.interpreter.specs.Calls.{hand_said, hand_call};
ghost use Rattle.interpreter.specs.Keeping.{held, read_done, handover_call};

use crate::buffers::MOST_LENT;
use crate::keeping::Kept;
use crate::result::{BadLine, end};
use gateway::Gateway;
use script::Cursor;
use text::Text;

// The writer of a hand-over, with a buffer of `room` bytes.
fn hand_said(gateway: Gateway, place: usize, room: usize, text: &mut Text)
    requires { room ≤ most_lent }
    ensures { Puts (hand_said room gateway place) text.old text.new }
{
    let mut buffer = [0; MOST_LENT as usize];
    let frame = &mut buffer[..room];
    let answer = transfer::hand(gateway, place, &mut *frame);
    transcript::put_hand_answer(text, answer, frame);
}

// hand ROOM PLACE
pub(crate) fn hand_call(
    gateway: &mut Gateway,
    mut words: Cursor,
    text: &mut Text,
) -> Result<(), BadLine>
    ensures { Tells (hand_call gateway.old words.entry.line.now (place words.entry)) gateway.new text.old text.new result }
{
    let room = words.read_number(MOST_LENT) as usize;
    let place = words.read_u16();
    end(words)?;
    hand_said(*gateway, usize::from(place), room, text);
    Ok(())
}

// The reader of a hand-over: the gateway read, or a fresh one.
fn handover_done(
    gateway: &mut Gateway,
    firmware: u16,
    protocol: u16,
    count: usize,
    bytes: &[u8],
    text: &mut Text,
)
    ensures { Does (read_done (read firmware protocol count bytes.now)) gateway.new text.old text.new }
{
    let handed = transfer::read(firmware, protocol, count, bytes);
    *gateway = handed.gateway;
    transcript::put_read_answer(text, handed.answer);
}

// read FIRMWARE PROTOCOL COUNT BYTE BYTE ..
pub(crate) fn handover_call(
    gateway: &mut Gateway,
    mut words: Cursor,
    kept: &mut Kept,
    text: &mut Text,
) -> Result<(), BadLine>
    ensures { Runs (handover_call gateway.old (length kept.old.store.now) (held kept.old) words.entry.line.now (place words.entry)) gateway.new kept.old kept.new text.old text.new result }
{
    let firmware = words.read_u16();
    let protocol = words.read_u16();
    let count = usize::from(words.read_u16());
    kept.gather(words)?;
    handover_done(gateway, firmware, protocol, count, kept.bytes(), text);
    kept.count = 0;
    Ok(())
}
