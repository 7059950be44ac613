// Fields: what an update is of (document 01's field: an address, a method and a state).
ghost use Rattle.std.specs.Prelude.{◌≡◌};
ghost use Rattle.devices.specs.Field.{kind_of, state_of, field_of, setting};

// What stands for the state of a mode, which has none.
const NO_STATE: u8 = 0;

// A setting of a device, with the state that its value is for; the mode has no state.
#[derive(Clone, Copy)]
pub enum Setting {
    Mode,
    Cool(u8),
    Slab(u8),
    Fan(u8),
}

// A setting of the device with the address, without an enum, so that it has a layout in C: the kind
// is 0 for the mode, 1 for cool, 2 for slab and 3 for fan; the mode's state is 0.
#[repr(C)]
#[derive(Clone, Copy, PartialEq, Eq)]
pub struct Field {
    pub address: u16,
    pub kind: u8,
    pub state: u8,
}

impl Setting {
    // The kind: which of the four settings it is. A method and no From, since its name says which number.
    fn kind(self) -> u8
        ensures { result ≡ kind_of self }
    {
        match self {
            Setting::Mode => 0,
            Setting::Cool(_) => 1,
            Setting::Slab(_) => 2,
            Setting::Fan(_) => 3,
        }
    }

    // The state; 0 for the mode, which has none.
    fn state(self) -> u8
        ensures { result ≡ state_of self }
    {
        match self {
            Setting::Mode => NO_STATE,
            Setting::Cool(state) | Setting::Slab(state) | Setting::Fan(state) => state,
        }
    }
}

impl Field {
    // The field of a setting. No From, since it takes the address too.
    pub fn of(address: u16, setting: Setting) -> Field
        ensures { result ≡ field_of address setting }
    {
        Field {
            address,
            kind: setting.kind(),
            state: setting.state(),
        }
    }

    // The setting, as `of` has it, and so no From; the mode's state is not read, and a kind above 3 reads as fan.
    #[tactic(auto, unfolding(crate::specs::Field::setting))]
    pub fn setting(self) -> Setting
        ensures { result ≡ setting self }
    {
        match self.kind {
            0 => Setting::Mode,
            1 => Setting::Cool(self.state),
            2 => Setting::Slab(self.state),
            _ => Setting::Fan(self.state),
        }
    }
}
