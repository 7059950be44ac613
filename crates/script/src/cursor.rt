// Reading a line word by word. A cursor that met a bad word stays bad, so that a line is judged once, at its end.
ghost use Rattle.std.specs.Prelude.{◌≡◌, ◌≤◌, length};
ghost use Rattle.std.proofs.lemmas.List.Edits.{sets};
ghost use Rattle.script.specs.Place.{start, place, moved, Reads};
ghost use Rattle.script.specs.Reading.{word_from, after_word, ended, read_number, read_seven, read_bytes, bytes_after};

use crate::numbers;
use crate::words::{Word, next_word};
use text::Text;

// How far the reading of a line is: the line, the place after the last word read, and whether every word so far was good.
#[derive(Clone, Copy)]
pub struct Cursor<'a> {
    pub line: &'a [u8],
    pub at: usize,
    pub good: bool,
}

impl<'a> Cursor<'a> {
    // A cursor before the first word of a line.
    pub fn new(line: &'a [u8]) -> Cursor<'a>
        ensures line { result.line.now ≡ line.now }
        ensures start { place result ≡ start }
    {
        Cursor {
            line,
            at: 0,
            good: true,
        }
    }

    // Reads the next word, which is empty where none is left.
    pub(crate) fn read_word(&mut self) -> &'a [u8]
        ensures word { result.now ≡ word_from self.old.line.now (place self.old) }
        ensures next { self.new ≡ moved self.old (after_word self.old.line.now (place self.old)) }
    {
        let Word { start, end } = next_word(self.line, self.at);
        self.at = end;
        &self.line[start..end]
    }

    // Whether every word was good and none is left.
    #[tactic(auto, using(crate::proofs::WordPlaces::word_empty), unfolding(crate::specs::Reading::ended))]
    pub fn ended(mut self) -> bool
        ensures { result ≡ ended self.entry.line.now (place self.entry) }
    {
        self.good && self.read_word().is_empty()
    }

    // Reads a number of at most `most`; a bad one counts as 0.
    #[tactic(auto, unfolding(crate::specs::Reading::read_number))]
    pub fn read_number(&mut self, most: u32) -> u32
        ensures reads { Reads (read_number most) self.old self.new result }
        ensures small { result ≤ most }
    {
        match numbers::number_in(most, self.read_word()) {
            Some(number) => number,
            None => {
                self.good = false;
                0
            }
        }
    }

    // Reads a number of 8 bits.
    pub fn read_u8(&mut self) -> u8
        ensures { Reads (read_number 255) self.old self.new result }
    {
        self.read_number(255) as u8
    }

    // Reads a number of 16 bits.
    pub fn read_u16(&mut self) -> u16
        ensures { Reads (read_number 65535) self.old self.new result }
    {
        self.read_number(65535) as u16
    }

    // Reads a value for each of the seven states.
    pub(crate) fn read_seven(&mut self) -> [u8; 7]
        ensures { Reads read_seven self.old self.new result }
    {
        let mut values = [0; 7];
        for i in 0..7 {
            values[i] = self.read_u8();
        }
        values
    }

    // Reads bytes up to the line's end to the front of `out`, and gives how many stand there: as an error where a word before them was bad,
    // and as an error of none where one of them writes no byte.
    pub fn read_bytes(mut self, out: &mut [u8]) -> Result<usize, usize>
        ensures count { result ≡ read_bytes (length out.old) self.entry.line.now (place self.entry) }
        ensures bytes { out.new ≡ sets out.old 0 (bytes_after self.entry.line.now (place self.entry)) }
    {
        let mut bytes = Text::new(out);
        loop {
            let word = self.read_word();
            if word.is_empty() {
                return if self.good {
                    Ok(bytes.at)
                } else {
                    Err(bytes.at)
                };
            }
            let Some(byte) = numbers::byte_in(word) else {
                return Err(0);
            };
            bytes.put_byte(byte);
        }
    }
}
