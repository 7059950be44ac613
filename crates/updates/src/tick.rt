// The tick: one second passes for the updates that wait.
ghost use Rattle.std.specs.Prelude.{◌≡◌};
ghost use Rattle.updates.specs.Tick.{tick};

use crate::queue::{CAPACITY, Queue};
use crate::update::LineField;

// How many ticks an update waits at most: two minutes.
const LIFETIME: u8 = 120;

// At this age the next tick is the last.
const LAST_AGE: u8 = LIFETIME - 1;

// Fields in the order of the queue, each with its line; past the count they are blank. It has a layout in C.
#[repr(C)]
#[derive(Drop)]
pub struct Fields {
    pub count: usize,
    pub list: [LineField; CAPACITY],
}

// The queue after a tick, and the fields whose updates left it.
#[derive(Drop)]
pub struct Ticked {
    pub queue: Queue,
    pub fields: Fields,
}

impl Queue {
    // All ages rise by 1; the updates whose age reaches the lifetime leave.
    pub fn tick(self) -> Ticked
        ensures { result ≡ tick self }
    {
        let mut slots = self.slots;
        let mut list = [LineField::blank(); CAPACITY];
        // The counts are locals: as fields of the result they went through memory, which took half as long again.
        let mut kept = 0;
        let mut left = 0;
        for update in self.waiting() {
            if LAST_AGE <= update.age {
                list[left] = update.named();
                left += 1;
            } else {
                slots[kept] = update.older();
                kept += 1;
            }
        }
        Ticked {
            queue: Queue { count: kept, slots },
            fields: Fields { count: left, list },
        }
    }
}
