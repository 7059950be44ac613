// The queue: the updates that wait, the head first.
ghost use Rattle.std.specs.Prelude.{◌≡◌, length};
ghost use Rattle.updates.specs.Queue.{waiting, used_slots, refill, fresh_queue, update_at, waits, head_of, from_line, lacks_room, push, full_number, pop, rotate};

use crate::line::Line;
use crate::update::Update;
use devices::Field;

// How many updates may wait.
pub(crate) const CAPACITY: usize = 16;

// How many updates of one line may wait.
const LINE_CAPACITY: usize = 8;

// The slots, the first `count` of them waiting; it has a layout in C.
#[repr(C)]
#[derive(Clone, Copy)]
pub struct Queue {
    pub count: usize,
    pub slots: [Update; CAPACITY],
}

// Why an update is not queued: its line has no place left.
#[derive(Drop)]
pub struct QueueFull;

// The queue after a push, and how many updates then wait.
#[derive(Drop)]
pub struct Pushed {
    pub queue: Queue,
    pub answer: Result<usize, QueueFull>,
}

impl QueueFull {
    // Document 01's number. A method and no From, since its name says which number.
    pub fn number(self) -> u8
        ensures { result ≡ full_number self }
    {
        16
    }
}

impl Queue {
    // A queue in which nothing waits.
    #[tactic(auto, unfolding(crate::specs::Queue::fresh_queue))]
    pub fn fresh() -> Queue
        ensures { result ≡ fresh_queue }
    {
        Queue {
            count: 0,
            slots: [Update::blank(); CAPACITY],
        }
    }

    // The updates that wait, from the head on.
    #[tactic(auto, using(crate::proofs::Slots::waiting_cut))]
    pub(crate) fn waiting(&self) -> &[Update]
        ensures { result.now ≡ waiting self.now }
    {
        &self.slots[..self.count.min(CAPACITY)]
    }

    // The number of updates that wait.
    pub fn used(self) -> usize
        ensures { result ≡ used_slots self }
    {
        self.waiting().len()
    }

    // The update at a place, from the head on; a blank one past the tail.
    #[tactic(auto, unfolding(crate::specs::Queue::update_at))]
    pub fn at(self, i: usize) -> Update
        ensures { result ≡ update_at (waiting self) i }
    {
        self.waiting().get(i).copied().unwrap_or(Update::blank())
    }

    // Whether an update of the field waits.
    #[tactic(auto, unfolding(crate::specs::Queue::waits, devices::specs::Field::same_field))]
    pub fn waits(self, field: Field) -> bool
        ensures { result ≡ waits (waiting self) field }
    {
        self.waiting().iter().any(|update| field == update.field)
    }

    // The update at the head, which is tried next.
    pub fn head(self) -> Option<Update>
        ensures { result ≡ head_of (waiting self) }
    {
        self.waiting().first().copied()
    }

    // How many updates of the line wait. A chain of `filter` and `count` takes half as long again.
    fn from(self, line: Line) -> usize
        ensures { result ≡ length (from_line line (waiting self)) }
    {
        let mut count = 0;
        for update in self.waiting() {
            if update.is_from(line) {
                count += 1;
            }
        }
        count
    }

    // Whether the line has no place left. A caller may hand over any queue, also one in which a line has more than its places, so the
    // slots are looked at as well.
    #[tactic(auto, unfolding(crate::specs::Queue::lacks_room))]
    fn lacks_room(self, line: Line) -> bool
        ensures { result ≡ lacks_room (waiting self) line }
    {
        LINE_CAPACITY <= self.from(line) || CAPACITY <= self.used()
    }

    // The queue with the update at the tail, or as it was where its line has no place left.
    #[tactic(auto, using(crate::proofs::Room::full_or_free, crate::proofs::Room::pushed))]
    pub fn push(self, update: Update) -> Pushed
        ensures { result ≡ push self update }
    {
        if self.lacks_room(Line::of(update.line)) {
            return Pushed {
                queue: self,
                answer: Err(QueueFull),
            };
        }
        let mut queue = self;
        queue.slots[self.count] = update;
        queue.count += 1;
        Pushed {
            queue,
            answer: Ok(queue.count),
        }
    }

    // The queue without its head.
    #[tactic(auto, using(crate::proofs::Slots::used_most, crate::proofs::Slots::none_popped, crate::proofs::Slots::popped))]
    pub fn pop(self) -> Queue
        ensures { result ≡ refill self (pop (waiting self)) }
    {
        let used = self.used();
        if used == 0 {
            return self;
        }
        let mut slots = self.slots;
        slots.copy_within(1..used, 0);
        Queue {
            count: used - 1,
            slots,
        }
    }

    // The queue with its head at the tail, its age kept.
    #[tactic(auto, using(crate::proofs::Slots::used_most, crate::proofs::Slots::front_length, crate::proofs::Slots::none_rotated, crate::proofs::Slots::rotated))]
    pub fn rotate(self) -> Queue
        ensures { result ≡ refill self (rotate (waiting self)) }
    {
        let used = self.used();
        if used == 0 {
            return self;
        }
        let mut slots = self.slots;
        slots[..used].rotate_left(1);
        Queue { count: used, slots }
    }
}
