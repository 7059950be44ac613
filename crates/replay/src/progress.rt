// The progress of a run: what is kept from block to block of the script, and one step over it.
ghost use Rattle.std.specs.Prelude.{◌≡◌, ◌≤◌, length, take};
ghost use mathlib.Core.List.{foldl};
ghost use Rattle.text.specs.Place.{Puts};
ghost use Rattle.interpreter.specs.Limits.{longest, most_kept, most_text};
ghost use Rattle.interpreter.specs.Done.{Runs};
ghost use Rattle.replay.specs.Progress.{line_room, State, Rooms, view, at_first, longer, Ends, line_text, line_ended, after_bytes, printed_of, last_of, used_of, ending};

use gateway::Gateway;
use interpreter::{BadLine, Kept, LONGEST};
use text::{Text, place_of, take};

// The gateway, how many lines ended so far, the first bytes of the next line and whether it has more than those, and the bytes that are
// kept for a long call. The buffers of both are lent for the whole run. `over` is a flag beside the line, as in `State`: the bytes stay.
#[derive(Drop)]
pub(crate) struct Progress<'a> {
    pub gateway: Gateway,
    pub lines: u64,
    pub line: Text<'a>,
    pub over: bool,
    pub kept: Kept<'a>,
}

// The text of no line is longer than `most_text`: that is known of a gateway that is passed by value. Nothing runs.
fn bounded(gateway: Gateway)
    ensures { (s : State) → s.gateway ≡ gateway → length (line_text s) ≤ most_text }
{
    let _ = gateway;
}

impl<'a> Progress<'a> {
    // Before the first byte.
    pub(crate) fn at_first(line: &'a mut [u8], store: &'a mut [u8]) -> Progress<'a>
        requires { (length line.old ≡ longest) × (length store.old ≡ most_kept) }
        ensures state { view result ≡ at_first }
        ensures rooms { Rooms result }
    {
        Progress {
            gateway: Gateway::fresh(0, 0),
            lines: 0,
            line: Text::new(line),
            over: false,
            kept: Kept { store, count: 0 },
        }
    }

    // Takes bytes of the next line, none of them a newline.
    fn extend(&mut self, bytes: &[u8])
        requires { Rooms self.old }
        ensures state { view self.new ≡ foldl longer (view self.old) bytes.now }
        ensures rooms { Rooms self.new }
    {
        let room = LONGEST - self.line.as_bytes().len();
        self.over |= room < bytes.len();
        self.line.put(bytes);
    }

    // Runs the line that ends. Of a line that is too long the number of bytes kept for a long call comes down to what the store holds, as
    // it does with every other line.
    fn run(&mut self, text: &mut Text) -> Result<(), BadLine>
        requires { Rooms self.old }
        ensures ends { Ends (view self.old) self.old self.new result text.old text.new }
        ensures runs { Runs (ending (view self.old)) self.new.gateway self.old.kept self.new.kept text.old text.new result }
        ensures line { self.new.line ≡ self.old.line }
    {
        if self.over {
            let room = self.kept.store.len();
            self.kept.count = self.kept.count.min(room);
            return Err(BadLine);
        }
        interpreter::run_line(
            &mut self.gateway,
            self.line.as_bytes(),
            &mut self.kept,
            text,
        )
    }

    // Ends a line, and puts its text.
    fn end_line(&mut self, text: &mut Text)
        requires { Rooms self.old }
        ensures state { view self.new ≡ line_ended (view self.old) }
        ensures rooms { Rooms self.new }
        ensures text { Puts (line_text (view self.old)) text.old text.new }
    {
        self.lines = self.lines.wrapping_add(1);
        if self.run(text).is_err() {
            transcript::put_bad_line(text, self.lines);
        }
        self.line.at = 0;
        self.over = false;
    }

    // One step: uses the bytes up to the first newline and with it, all where there is none, and puts what is printed of them at the
    // front of a buffer that has room for the text of every line. Gives how many bytes it used.
    pub(crate) fn part(&mut self, bytes: &[u8], text: &mut Text) -> usize
        requires rooms { Rooms self.old }
        requires front { text.old.at ≡ 0 }
        requires room { line_room ≤ length text.old.out.now }
        ensures used { result ≡ used_of bytes.now }
        ensures within { result ≤ length bytes.now }
        ensures state { view self.new ≡ after_bytes (view self.old) (take (used_of bytes.now) bytes.now) }
        ensures rooms { Rooms self.new }
        ensures text { Puts (printed_of (view self.old) (take (used_of bytes.now) bytes.now)) text.old text.new }
        ensures whole { text.new.at ≡ length (printed_of (view self.old) (take (used_of bytes.now) bytes.now)) }
    {
        bounded(self.gateway);
        let end = place_of(b'\n', bytes, 0);
        self.extend(take(bytes, end));
        if end == bytes.len() {
            return end;
        }
        self.end_line(text);
        end + 1
    }

    // The end of the input: puts the text of a last line without a newline.
    pub(crate) fn last(&mut self, text: &mut Text)
        requires rooms { Rooms self.old }
        requires front { text.old.at ≡ 0 }
        requires room { line_room ≤ length text.old.out.now }
        ensures text { Puts (last_of (view self.old) (view self.old).kept) text.old text.new }
        ensures whole { text.new.at ≡ length (last_of (view self.old) (view self.old).kept) }
    {
        bounded(self.gateway);
        if self.line.at > 0 {
            self.end_line(text);
        }
    }
}
