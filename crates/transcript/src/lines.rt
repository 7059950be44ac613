// The serial lines, as an answer names them.
ghost use Rattle.text.specs.Place.{Puts};
ghost use Rattle.transcript.specs.Lines.{line_text};

use text::Text;
use updates::Line;

// Puts the word of a serial line.
pub(crate) fn put_line(text: &mut Text, line: Line)
    ensures { Puts (line_text line) text.old text.new }
{
    text.put(match line {
        Line::Controller => b"controller",
        Line::Panel => b"panel",
    });
}
