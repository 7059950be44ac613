// The line of what a block did: how many bytes it used, how often each answer came up, and its replies.
ghost use Rattle.text.specs.Place.{Puts};
ghost use Rattle.transcript.specs.Tallies.{tally_text, counts_text, used_text, block_answer_text};

use crate::answers::{put_frame, put_refusal};
use crate::numbers::{put_number, put_numbers};
use blocks::{BlockRefusal, Counts, Used};
use text::Text;

// Puts a word and some counts, then another word and a number.
fn put_tally(text: &mut Text, word: &[u8], counts: &[u32], last: &[u8], n: u32)
    ensures { Puts (tally_text word.now counts.now last.now n) text.old text.new }
{
    text.put(word);
    put_numbers(text, counts);
    text.put(last);
    put_number(text, u64::from(n));
}

// Puts the counts of a block: of the drops, 3 to 6, with the body bytes that they had taken, and of the refusals, 7 to 16, with the
// updates queued.
fn put_block_counts(text: &mut Text, counts: Counts)
    ensures { Puts (counts_text counts) text.old text.new }
{
    let (drops, refusals) = counts.numbers.split_at(4);
    put_tally(text, b" drops", drops, b" body", counts.body);
    put_tally(text, b" refused", refusals, b" queued", counts.queued);
}

// Puts the line of a block that was worked through; its replies stand at the front of `area`.
fn put_used(text: &mut Text, used: Used, counts: Counts, area: &[u8])
    ensures { Puts (used_text used.bytes used.written counts area.now) text.old text.new }
{
    text.put(b"block");
    put_number(text, used.bytes as u64);
    put_block_counts(text, counts);
    text.put(b" reply");
    put_frame(text, area, used.written);
}

// The line of what a block did; `area` is the lent area after it.
pub fn put_block_answer(
    text: &mut Text,
    answer: Result<Used, BlockRefusal>,
    counts: Counts,
    area: &[u8],
)
    ensures { Puts (block_answer_text answer counts area.now) text.old text.new }
{
    match answer {
        Ok(used) => put_used(text, used, counts, area),
        Err(why) => put_refusal(text, b"block refused", why.number()),
    }
}
