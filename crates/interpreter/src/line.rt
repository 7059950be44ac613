// A line of a script: an empty line, a comment, a call, or a bad line.
ghost use Rattle.std.specs.Prelude.{◌≤◌, Some, length};
ghost use Rattle.script.specs.Place.{place};
ghost use Rattle.interpreter.specs.Done.{Runs};
ghost use Rattle.interpreter.specs.Keeping.{held};
ghost use Rattle.interpreter.specs.Line.{call_done, line_run};

use crate::keeping::Kept;
use crate::result::BadLine;
use crate::{block, bytes, calls, date, handing, ticks};
use gateway::Gateway;
use script::{Call, Cursor};
use text::Text;

// The call that a line's first word names, with the words after it; a long call takes the bytes kept.
fn call_done(
    call: Call,
    gateway: &mut Gateway,
    words: Cursor,
    kept: &mut Kept,
    text: &mut Text,
) -> Result<(), BadLine>
    requires { kept.old.count ≤ length kept.old.store.now }
    ensures { Runs (call_done (Some call) gateway.old (length kept.old.store.now) (held kept.old) words.entry.line.now (place words.entry)) gateway.new kept.old kept.new text.old text.new result }
{
    match call {
        Call::Nothing => Ok(()),
        Call::Gateway => calls::gateway_call(gateway, words, text),
        Call::Row => calls::row_call(gateway, words, text),
        Call::Byte => bytes::byte_call(gateway, words, text),
        Call::Tick => ticks::tick_call(gateway, words, text),
        Call::Turn => calls::turn_call(gateway, words, text),
        Call::Head => calls::head_call(gateway, words, text),
        Call::Error => calls::error_call(gateway, words, text),
        Call::Write => calls::write_call(gateway, words, text),
        Call::Dump => calls::dump_call(gateway, words, text),
        Call::Date => date::date_call(gateway, words, text),
        Call::Plant => date::plant_call(gateway, words, text),
        Call::Hand => handing::hand_call(gateway, words, text),
        Call::Read => handing::handover_call(gateway, words, kept, text),
        Call::Block => block::block_call(gateway, words, kept, text),
        Call::More => kept.gather(words),
    }
}

// Runs one line: the text of its answers is put behind what is there; a bad line leaves the gateway and the text as they were. The
// bytes kept for a long call stand at the front of the store.
pub fn run_line(
    gateway: &mut Gateway,
    line: &[u8],
    kept: &mut Kept,
    text: &mut Text,
) -> Result<(), BadLine>
    ensures { Runs (line_run gateway.old line.now kept.old.count kept.old.store.now) gateway.new kept.old kept.new text.old text.new result }
{
    kept.trim();
    let mut words = Cursor::new(line);
    let call = words.read_call().ok_or(BadLine)?;
    call_done(call, gateway, words, kept, text)
}
