// Fields of devices, as a script writes them, and those with their serial lines.
ghost use Rattle.std.specs.Prelude.{◌∷◌};
ghost use Rattle.text.specs.Place.{Puts};
ghost use Rattle.transcript.specs.Fields.{stated_text, setting_text, field_text, line_field_text, named_text, next_text, fields_text};

use crate::lines::put_line;
use crate::numbers::put_number;
use devices::{Field, Setting};
use text::Text;
use updates::{Line, LineField};

// Puts a setting's word, the address and the state.
fn put_stated(text: &mut Text, word: &[u8], address: u16, state: u8)
    ensures { Puts (stated_text word.now address state) text.old text.new }
{
    text.put(word);
    put_number(text, u64::from(address));
    put_number(text, u64::from(state));
}

// Puts a setting of the device with the address.
fn put_setting(text: &mut Text, address: u16, setting: Setting)
    ensures { Puts (setting_text address setting) text.old text.new }
{
    match setting {
        Setting::Mode => {
            text.put(b"mode");
            put_number(text, u64::from(address));
        }
        Setting::Cool(state) => put_stated(text, b"cool", address, state),
        Setting::Slab(state) => put_stated(text, b"slab", address, state),
        Setting::Fan(state) => put_stated(text, b"fan", address, state),
    }
}

// Puts a field.
fn put_field(text: &mut Text, field: Field)
    ensures { Puts (field_text field) text.old text.new }
{
    put_setting(text, field.address, field.setting());
}

// Puts a serial line and a field.
pub(crate) fn put_line_field(text: &mut Text, line: Line, field: Field)
    ensures { Puts (line_field_text line field) text.old text.new }
{
    put_line(text, line);
    text.put_byte(b' ');
    put_field(text, field);
}

// Puts a field that is stored with the number of its serial line.
fn put_named(text: &mut Text, named: LineField)
    ensures { Puts (named_text named) text.old text.new }
{
    put_line_field(text, Line::of(named.line), named.field);
}

// Puts a field after another.
fn put_next(text: &mut Text, named: LineField)
    ensures { Puts (next_text named) text.old text.new }
{
    text.put(b", ");
    put_named(text, named);
}

// Puts the fields of a list: the first, and more.
pub(crate) fn put_fields(text: &mut Text, first: LineField, more: &[LineField])
    ensures { Puts (fields_text (first ∷ more.now)) text.old text.new }
{
    put_named(text, first);
    for &named in more {
        put_next(text, named);
    }
}
