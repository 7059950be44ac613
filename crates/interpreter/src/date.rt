// The lines about the stored date: the owner's check of it, and one that is planted for tests.
#![tactic(auto, using(crate::proofs::Tellings::tells_bad, crate::proofs::Tellings::tells_good), unfolding(crate::specs::Calls::date_call, crate::specs::Calls::plant_call))]

ghost use Rattle.std.specs.Prelude.{◌≡◌};
ghost use Rattle.script.specs.Place.{place};
ghost use Rattle.interpreter.specs.Done.{Tells};
ghost use Rattle.interpreter.specs.Calls.{date_call, planted, plant_call};

use crate::result::{BadLine, end};
use dates::Date;
use gateway::Gateway;
use script::Cursor;
use text::Text;

// date
pub(crate) fn date_call(
    gateway: &mut Gateway,
    words: Cursor,
    text: &mut Text,
) -> Result<(), BadLine>
    ensures { Tells (date_call gateway.old words.entry.line.now (place words.entry)) gateway.new text.old text.new result }
{
    end(words)?;
    *gateway = gateway.check_date();
    transcript::put_date_answer(text);
    Ok(())
}

// Plants a stored date, as it stands: what a build with another rule for dates may have left.
fn plant(gateway: &mut Gateway, date: Date)
    ensures { gateway.new ≡ planted gateway.old date }
{
    gateway.properties.date = date;
}

// plant date YEAR MONTH DAY WEEKDAY HOUR MINUTE
pub(crate) fn plant_call(
    gateway: &mut Gateway,
    mut words: Cursor,
    text: &mut Text,
) -> Result<(), BadLine>
    ensures { Tells (plant_call gateway.old words.entry.line.now (place words.entry)) gateway.new text.old text.new result }
{
    let date = words.read_date();
    end(words)?;
    plant(gateway, date);
    transcript::put_plant_answer(text);
    Ok(())
}
