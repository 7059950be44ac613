// The front of a line that tells an event: where it happened, what it was, and a number; the line of nothing but that; and the line
// of a dropped packet.
ghost use Rattle.text.specs.Place.{Puts};
ghost use Rattle.text.specs.Event.{event_text, event_line, drop_line};

use crate::place::Text;

impl Text<'_> {
    // Puts the offset, the word and the number, a space between them.
    pub fn put_event(&mut self, offset: u64, word: &[u8], number: u64)
        ensures { Puts (event_text offset word.now number) self.old self.new }
    {
        self.put_decimal(offset);
        self.put_byte(b' ');
        self.put(word);
        self.put_byte(b' ');
        self.put_decimal(number);
    }

    // Puts the same as a line of its own.
    pub fn put_event_line(&mut self, offset: u64, word: &[u8], number: u64)
        ensures { Puts (event_line offset word.now number) self.old self.new }
    {
        self.put_event(offset, word, number);
        self.put_byte(b'\n');
    }

    // Puts the line of a dropped packet: after its number how many body bytes it had taken.
    pub fn put_drop_line(&mut self, offset: u64, number: u64, taken: u64)
        ensures { Puts (drop_line offset number taken) self.old self.new }
    {
        self.put_event(offset, b"drop", number);
        self.put_byte(b' ');
        self.put_decimal(taken);
        self.put_byte(b'\n');
    }
}
