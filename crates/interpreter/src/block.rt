// The block call: the bytes kept and those of the line, with a reply area of its own.
ghost use Rattle.std.specs.Prelude.{◌≤◌, length};
ghost use Rattle.script.specs.Place.{place};
ghost use Rattle.interpreter.specs.Limits.{most_area};
ghost use Rattle.interpreter.specs.Done.{Does, Runs};
ghost use Rattle.interpreter.specs.Keeping.{held, block_done, block_call};

use crate::buffers::MOST_AREA;
use crate::keeping::Kept;
use crate::result::BadLine;
use gateway::Gateway;
use script::Cursor;
use text::Text;
use updates::Line;

// A block of a serial line, with a reply area of `room` bytes.
fn block_done(gateway: &mut Gateway, on: Line, bytes: &[u8], room: usize, text: &mut Text)
    requires { room ≤ most_area }
    ensures { Does (block_done on room gateway.old bytes.now) gateway.new text.old text.new }
{
    let mut buffer = [0; MOST_AREA as usize];
    let area = &mut buffer[..room];
    let blocked = blocks::block(*gateway, on, bytes, &mut *area);
    transcript::put_block_answer(text, blocked.answer, blocked.counts, area);
    *gateway = blocked.gateway;
}

// block [LINE] AREA BYTE BYTE ..
pub(crate) fn block_call(
    gateway: &mut Gateway,
    mut words: Cursor,
    kept: &mut Kept,
    text: &mut Text,
) -> Result<(), BadLine>
    ensures { Runs (block_call gateway.old (length kept.old.store.now) (held kept.old) words.entry.line.now (place words.entry)) gateway.new kept.old kept.new text.old text.new result }
{
    let on = words.read_line();
    let room = words.read_number(MOST_AREA) as usize;
    kept.gather(words)?;
    block_done(gateway, on, kept.bytes(), room, text);
    kept.count = 0;
    Ok(())
}
