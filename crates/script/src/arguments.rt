// What the words of a line say: its call, and the arguments that are more than a number: a serial line, a row, a field, what a turn
// brings, and a date.
ghost use Rattle.std.specs.Prelude.{◌≡◌};
ghost use Rattle.script.specs.Place.{place, moved, Reads};
ghost use Rattle.script.specs.Reading.{call_read};
ghost use Rattle.script.specs.Arguments.{read_line, read_row, read_field, read_heard, after_date, read_date};

use crate::cursor::Cursor;
use crate::names::{self, Call, SettingName};
use dates::Date;
use devices::{Field, Row, Setting};
use updates::Line;

impl Cursor<'_> {
    // Reads the name of a call; none where the word names no call.
    pub fn read_call(&mut self) -> Option<Call>
        ensures { Reads call_read self.old self.new result }
    {
        names::first_call(self.read_word())
    }

    // Reads the word of a serial line; left out, it is the controller's and no word is read.
    #[tactic(auto, unfolding(crate::specs::Arguments::read_line))]
    pub fn read_line(&mut self) -> Line
        ensures { Reads read_line self.old self.new result }
    {
        let mut ahead = *self;
        let Some(line) = names::line_named(ahead.read_word()) else {
            return Line::Controller;
        };
        *self = ahead;
        line
    }

    // Reads the 27 numbers of a row.
    #[tactic(auto, unfolding(crate::specs::Arguments::read_row))]
    pub fn read_row(&mut self) -> Row
        ensures { Reads read_row self.old self.new result }
    {
        Row {
            address: self.read_u16(),
            version: self.read_number(u32::MAX),
            mask: self.read_u16(),
            mode: self.read_u8(),
            state: self.read_u8(),
            events: self.read_u8(),
            cool: self.read_seven(),
            slab: self.read_seven(),
            fan: self.read_seven(),
        }
    }

    // Reads a field: the setting, the address and, but for the mode, the state.
    #[tactic(auto, unfolding(crate::specs::Arguments::read_field))]
    pub fn read_field(&mut self) -> Field
        ensures { Reads read_field self.old self.new result }
    {
        let name = names::setting_named(self.read_word());
        let named = *self;
        let address = self.read_u16();
        let setting = match name {
            Some(SettingName::Mode) => Setting::Mode,
            Some(SettingName::Cool) => Setting::Cool(self.read_u8()),
            Some(SettingName::Slab) => Setting::Slab(self.read_u8()),
            Some(SettingName::Fan) => Setting::Fan(self.read_u8()),
            // A bad name ends the reading where it stands.
            None => {
                *self = Cursor {
                    good: false,
                    ..named
                };
                Setting::Mode
            }
        };
        Field::of(address, setting)
    }

    // Reads what a turn brings: none for silence, or a value.
    #[tactic(auto, unfolding(crate::specs::Arguments::read_heard))]
    pub fn read_heard(&mut self) -> Option<u8>
        ensures { Reads read_heard self.old self.new result }
    {
        let mut ahead = *self;
        if lists::equal(ahead.read_word(), b"silence") {
            *self = ahead;
            return None;
        }
        Some(self.read_u8())
    }

    // Reads the word `date`.
    #[tactic(auto, unfolding(crate::specs::Arguments::after_date))]
    fn read_date_word(&mut self)
        ensures { self.new ≡ moved self.old (after_date self.old.line.now (place self.old)) }
    {
        if !lists::equal(self.read_word(), b"date") {
            self.good = false;
        }
    }

    // Reads a date: the word `date`, and the six numbers of its parts.
    #[tactic(auto, unfolding(crate::specs::Arguments::read_date))]
    pub fn read_date(&mut self) -> Date
        ensures { Reads read_date self.old self.new result }
    {
        self.read_date_word();
        Date {
            year: self.read_u16(),
            month: self.read_u8(),
            day: self.read_u8(),
            weekday: self.read_u8(),
            hour: self.read_u8(),
            minute: self.read_u8(),
        }
    }
}
