// A bad line: one of no known call, or whose words are not all good, or with a word too few or too many.
ghost use Rattle.std.specs.Prelude.{◌≡◌, is_ok};
ghost use Rattle.script.specs.Place.{place};
ghost use Rattle.script.specs.Reading.{ended};

use script::Cursor;

// The error of a bad line. It changes nothing and has no text.
#[derive(Clone, Copy)]
pub struct BadLine;

// Holds a line to its end: every word was good, and none is left.
pub(crate) fn end(words: Cursor) -> Result<(), BadLine>
    ensures { is_ok result ≡ ended words.entry.line.now (place words.entry) }
{
    if words.ended() { Ok(()) } else { Err(BadLine) }
}
