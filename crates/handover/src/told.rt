// What is told of a hand-over: the properties and the rows that it carries, or the refusal and its place.
ghost use Rattle.std.specs.Prelude.{◌≡◌, ◌≤◌, length};
ghost use Rattle.std.proofs.lemmas.List.Edits.{sets};
ghost use Rattle.text.specs.Place.{Puts};
ghost use Rattle.handover.specs.Told.{most_told, place_in, refused_line, read_text, told};

use gateway::Gateway;
use text::Text;
use transfer::ReadRefusal;

// Room for all that is told.
pub(crate) const MOST_TOLD: usize = 8192;

// The most rows of a hand-over.
const MOST_ROWS: usize = 32;

// The place in the input of what refused it, where `at` is the place in the frames: that of the number of rows where it is too large.
#[tactic(auto, unfolding(crate::specs::Told::place_in))]
fn place_in(count: usize, at: usize) -> u64
    ensures { result ≡ place_in count at }
{
    if MOST_ROWS < count {
        0
    } else {
        (at as u64).wrapping_add(1)
    }
}

// Puts the line of a refusal.
#[tactic(auto, unfolding(crate::specs::Told::refused_line))]
fn put_refused(text: &mut Text, offset: u64, why: ReadRefusal)
    ensures { Puts (refused_line offset why) text.old text.new }
{
    text.put_event_line(offset, b"refused", u64::from(why.number()));
}

// Puts what a gateway that was read holds.
#[tactic(auto, unfolding(crate::specs::Told::read_text))]
fn put_read(text: &mut Text, gateway: Gateway)
    ensures text { Puts (read_text gateway) text.old text.new }
    ensures short { length (read_text gateway) ≤ most_told }
{
    transcript::put_carried(text, gateway.properties, gateway.table);
}

// Puts what is told of the input.
fn put_told(text: &mut Text, input: &[u8])
    ensures text { Puts (told input.now) text.old text.new }
    ensures short { length (told input.now) ≤ most_told }
{
    if input.is_empty() {
        put_refused(text, 0, ReadRefusal::Length);
        return;
    }
    let count = usize::from(input[0]);
    let handed = transfer::read(0, 0, count, &input[1..]);
    match handed.answer {
        Ok(()) => put_read(text, handed.gateway),
        Err(refused) => put_refused(text, place_in(count, refused.at), refused.why),
    }
}

// Puts it at the front of `out`, which has room for it, and gives its length.
pub(crate) fn tell(input: &[u8], out: &mut [u8; MOST_TOLD]) -> usize
    ensures whole { result ≡ length (told input.now) }
    ensures front { out.new ≡ sets out.old 0 (told input.now) }
{
    let mut text = Text::new(out);
    put_told(&mut text, input);
    text.at
}
