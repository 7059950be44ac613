// The ticks of a line.
#![tactic(auto, using(crate::proofs::Tellings::tells_bad, crate::proofs::Tellings::tells_good), unfolding(crate::specs::Calls::tick_call, crate::specs::Ticks::ticks_done))]

ghost use Rattle.script.specs.Place.{place};
ghost use Rattle.interpreter.specs.Done.{Tells, Does};
ghost use Rattle.interpreter.specs.Ticks.{ticks_done};
ghost use Rattle.interpreter.specs.Calls.{tick_call};

use crate::result::{BadLine, end};
use gateway::Gateway;
use script::Cursor;
use text::Text;

// `n` ticks. Once no update waits a tick changes and lists nothing, so the rest are left out.
fn ticks_done(gateway: &mut Gateway, n: u16, text: &mut Text)
    ensures { Does (ticks_done n gateway.old) gateway.new text.old text.new }
{
    for i in 0..n {
        if gateway.queue.count == 0 {
            return;
        }
        let ticked = gateway.tick();
        transcript::put_tick_answer(text, u64::from(i) + 1, ticked.fields);
        *gateway = ticked.gateway;
    }
}

// tick N
pub(crate) fn tick_call(
    gateway: &mut Gateway,
    mut words: Cursor,
    text: &mut Text,
) -> Result<(), BadLine>
    ensures { Tells (tick_call gateway.old words.entry.line.now (place words.entry)) gateway.new text.old text.new result }
{
    let n = words.read_u16();
    end(words)?;
    ticks_done(gateway, n, text);
    Ok(())
}
