// Updates: what was asked for, by which line, and how long it has waited.
ghost use Rattle.std.specs.Prelude.{◌≡◌, ◌<◌};
ghost use Rattle.updates.specs.Update.{blank_field, blank_named, blank_update, named, is_from, older};

use crate::line::Line;
use devices::Field;

// A field, and the line whose byte asked for its update, as a number for C.
#[repr(C)]
#[derive(Clone, Copy)]
pub struct LineField {
    pub line: u8,
    pub field: Field,
}

// An update: the line whose byte queued it, as a number for C, its field, the value asked for, and its age in ticks.
#[repr(C)]
#[derive(Clone, Copy)]
pub struct Update {
    pub line: u8,
    pub field: Field,
    pub value: u8,
    pub age: u8,
}

// What stands where there is no field.
fn blank_field() -> Field
    ensures { result ≡ blank_field }
{
    Field {
        address: 0,
        kind: 0,
        state: 0,
    }
}

impl LineField {
    // What stands where there is no field with its line.
    pub(crate) fn blank() -> LineField
        ensures { result ≡ blank_named }
    {
        LineField {
            line: 0,
            field: blank_field(),
        }
    }
}

impl Update {
    // What stands where there is no update.
    pub(crate) fn blank() -> Update
        ensures { result ≡ blank_update }
    {
        Update {
            line: 0,
            field: blank_field(),
            value: 0,
            age: 0,
        }
    }

    // Its field, with its line.
    pub(crate) fn named(self) -> LineField
        ensures { result ≡ named self }
    {
        LineField {
            line: self.line,
            field: self.field,
        }
    }

    // Whether a byte of the line queued it.
    #[tactic(auto, unfolding(crate::specs::Update::is_from))]
    pub(crate) fn is_from(self, line: Line) -> bool
        ensures { result ≡ is_from line self }
    {
        line == Line::of(self.line)
    }

    // The update one tick older.
    pub(crate) fn older(self) -> Update
        requires { self.age < 255 }
        ensures { result ≡ older self }
    {
        Update {
            age: self.age + 1,
            ..self
        }
    }
}
