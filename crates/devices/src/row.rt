// Rows: what the gateway knows of a device, the rules of a row, and its values.
#![tactic(auto, unfolding(crate::specs::Row::for_state, crate::specs::Row::mode_legal, crate::specs::Row::has, crate::specs::Row::stored, crate::specs::Row::in_force, crate::specs::Row::state_for, crate::specs::Row::in_range, crate::specs::Row::legal, crate::specs::Row::settable, crate::specs::Row::holds, crate::specs::Row::keeps_rules, crate::specs::Row::with_value))]

ghost use Rattle.std.specs.Prelude.{◌≡◌, set, get_or};
ghost use Rattle.lists.specs.Filter.{every};
ghost use Rattle.devices.specs.Row.{not_available, has_bit, for_state, has, stored, in_force, state_for, mode_legal, in_range, legal, updatable, settable, holds, holds_at, states, device_legal, time_legal, all_held, keeps_rules, with_value, blank_row};

use crate::field::Setting;

// The mask's attribute bits: heating,
const HEATING: u16 = 1;

// cooling,
const COOLING: u16 = 2;

// the slab setpoint,
const SLAB: u16 = 4;

// and fan.
const FAN: u16 = 8;

// What stands for a value that is not available.
const NOT_AVAILABLE: u8 = 0xFF;

// A device has values for seven states, from 0 on.
const STATE_COUNT: usize = 7;

// These states.
const STATES: [u8; STATE_COUNT] = [0, 1, 2, 3, 4, 5, 6];

// The last of them.
const LAST_STATE: u8 = 6;

// What stands for the device's current state in a frame.
const CURRENT_STATE: u8 = 7;

// The mode that no Update may set.
const EMERGENCY: u8 = 6;

// What the gateway knows of a device: its address and what it reported. Cool, slab and fan have a
// value for each state.
#[repr(C)]
#[derive(Clone, Copy)]
pub struct Row {
    pub address: u16,
    pub version: u32,
    pub mask: u16,
    pub mode: u8,
    pub state: u8,
    pub events: u8,
    pub cool: [u8; STATE_COUNT],
    pub slab: [u8; STATE_COUNT],
    pub fan: [u8; STATE_COUNT],
}

// Whether a mask has an attribute.
fn has_bit(mask: u16, bit: u16) -> bool
    ensures { result ≡ has_bit mask bit }
{
    mask & bit != 0
}

// Whether a device with the mask has a value for a state, of the setting that needs the bit.
fn for_state(mask: u16, bit: u16, state: u8) -> bool
    ensures { result ≡ for_state mask bit state }
{
    state <= LAST_STATE && has_bit(mask, bit)
}

// Whether a row with the mask may hold the mode.
fn mode_legal(mask: u16, mode: u8) -> bool
    ensures { result ≡ mode_legal mask mode }
{
    match mode {
        0 => true,
        1 => has_bit(mask, HEATING) || has_bit(mask, SLAB),
        2 => has_bit(mask, HEATING) && has_bit(mask, COOLING),
        3 => has_bit(mask, COOLING),
        4 => has_bit(mask, FAN),
        EMERGENCY => true,
        _ => false,
    }
}

// The value for a state; not available above the last.
fn value_at(values: [u8; STATE_COUNT], state: u8) -> u8
    ensures { result ≡ get_or values state not_available }
{
    values
        .get(usize::from(state))
        .copied()
        .unwrap_or(NOT_AVAILABLE)
}

// The values with the one for a state replaced; the same above the last.
fn with_value_at(mut values: [u8; STATE_COUNT], state: u8, value: u8) -> [u8; STATE_COUNT]
    ensures { result ≡ set values state value }
{
    let place = usize::from(state);
    if place < STATE_COUNT {
        values[place] = value;
    }
    values
}

impl Setting {
    // Whether an Update may set a legal value.
    fn updatable(self, value: u8) -> bool
        ensures { result ≡ updatable self value }
    {
        match self {
            Setting::Mode => value != EMERGENCY,
            Setting::Cool(_) | Setting::Slab(_) | Setting::Fan(_) => true,
        }
    }
}

impl Row {
    // A row of zeros.
    pub fn blank() -> Row
        ensures { result ≡ blank_row }
    {
        Row {
            address: 0,
            version: 0,
            mask: 0,
            mode: 0,
            state: 0,
            events: 0,
            cool: [0; STATE_COUNT],
            slab: [0; STATE_COUNT],
            fan: [0; STATE_COUNT],
        }
    }

    // Whether the device has the setting.
    fn has(self, setting: Setting) -> bool
        ensures { result ≡ has self setting }
    {
        match setting {
            Setting::Mode => true,
            Setting::Cool(state) => for_state(self.mask, COOLING, state),
            Setting::Slab(state) => for_state(self.mask, SLAB, state),
            Setting::Fan(state) => for_state(self.mask, FAN, state),
        }
    }

    // The value that the row holds for a setting.
    pub fn stored(self, setting: Setting) -> u8
        ensures { result ≡ stored self setting }
    {
        match setting {
            Setting::Mode => self.mode,
            Setting::Cool(state) => value_at(self.cool, state),
            Setting::Slab(state) => value_at(self.slab, state),
            Setting::Fan(state) => value_at(self.fan, state),
        }
    }

    // The value in force: not available where the device lacks the setting.
    pub fn in_force(self, setting: Setting) -> u8
        ensures { result ≡ in_force self setting }
    {
        if self.has(setting) {
            self.stored(setting)
        } else {
            NOT_AVAILABLE
        }
    }

    // The state that a frame's state names: 7 is the current one.
    pub fn state_for(self, state: u8) -> u8
        ensures { result ≡ state_for self state }
    {
        if state == CURRENT_STATE {
            self.state
        } else {
            state
        }
    }

    // Whether the value is in the setting's range.
    fn in_range(self, setting: Setting, value: u8) -> bool
        ensures { result ≡ in_range self setting value }
    {
        match setting {
            Setting::Mode => mode_legal(self.mask, value),
            Setting::Cool(_) | Setting::Slab(_) => value <= 254,
            Setting::Fan(_) => value <= 100,
        }
    }

    // Whether the row, or the device's own answer, may hold the value.
    pub(crate) fn legal(self, setting: Setting, value: u8) -> bool
        ensures { result ≡ legal self setting value }
    {
        self.has(setting) && self.in_range(setting, value)
    }

    // Whether an Update may set the value.
    pub fn settable(self, setting: Setting, value: u8) -> bool
        ensures { result ≡ settable self setting value }
    {
        self.legal(setting, value) && setting.updatable(value)
    }

    // Whether the row's value of a setting is legal; not available where the device lacks it.
    fn holds(self, setting: Setting) -> bool
        ensures { result ≡ holds self setting }
    {
        let value = self.stored(setting);
        if self.has(setting) {
            self.legal(setting, value)
        } else {
            value == NOT_AVAILABLE
        }
    }

    // Whether it is so of cool, slab and fan in every state. The first value that is not leaves both loops by the label, the form that
    // document 01 names for this check.
    fn values_held(self) -> bool
        ensures { result ≡ every (holds_at self) states }
    {
        'values: {
            for state in STATES {
                for setting in [
                    Setting::Cool(state),
                    Setting::Slab(state),
                    Setting::Fan(state),
                ] {
                    if !self.holds(setting) {
                        break 'values false;
                    }
                }
            }
            true
        }
    }

    // Whether the address and the mask are legal.
    fn device_legal(self) -> bool
        ensures { result ≡ device_legal self }
    {
        self.address != 0 && self.mask <= 15
    }

    // Whether the state and the events are legal.
    fn time_legal(self) -> bool
        ensures { result ≡ time_legal self }
    {
        self.state <= LAST_STATE && self.events <= 2
    }

    // Whether all values of the row are legal, or not available where the device lacks the setting.
    #[tactic(auto, using(crate::proofs::Values::held_by_state))]
    fn all_held(self) -> bool
        ensures { result ≡ all_held self }
    {
        self.holds(Setting::Mode) && self.values_held()
    }

    // Whether the row keeps the rules.
    pub(crate) fn keeps_rules(self) -> bool
        ensures { result ≡ keeps_rules self }
    {
        self.device_legal() && self.time_legal() && self.all_held()
    }

    // The row with the value of one setting replaced.
    pub fn with_value(self, setting: Setting, value: u8) -> Row
        ensures { result ≡ with_value self setting value }
    {
        match setting {
            Setting::Mode => Row {
                mode: value,
                ..self
            },
            Setting::Cool(state) => Row {
                cool: with_value_at(self.cool, state, value),
                ..self
            },
            Setting::Slab(state) => Row {
                slab: with_value_at(self.slab, state, value),
                ..self
            },
            Setting::Fan(state) => Row {
                fan: with_value_at(self.fan, state, value),
                ..self
            },
        }
    }
}
