// The gateway: its state, and the calls that lend no buffer.
ghost use Rattle.std.specs.Prelude.{◌≡◌};
ghost use Rattle.gateway.specs.View.{view, put};
ghost use Rattle.gateway.specs.Calls.{add_row, tick, head_of, set_network_error, check_date};
ghost use Rattle.gateway.specs.Results.{fresh, adding, ticking};

use crate::answers::{HeadRefusal, Waiting};
use crate::lines::Receivers;
use devices::{Row, RowRefusal, Table};
use trpc::Properties;
use updates::{Fields, Line, Queue};

// The receivers of its lines, the rows of its devices, the updates that wait, and what it holds itself. The promises hold for every
// value of these, also one that no list of calls leaves.
#[repr(C)]
#[derive(Clone, Copy)]
pub struct Gateway {
    pub receivers: Receivers,
    pub table: Table,
    pub queue: Queue,
    pub properties: Properties,
}

// The gateway after a row was added, or refused.
#[derive(Drop)]
pub struct Added {
    pub gateway: Gateway,
    pub answer: Result<(), RowRefusal>,
}

// The gateway after a tick, and the fields of the updates that timed out, each with its line.
#[repr(C)]
#[derive(Drop)]
pub struct Ticked {
    pub gateway: Gateway,
    pub fields: Fields,
}

impl Gateway {
    // No rows, none waiting and fresh receivers; the owner gives the firmware and protocol numbers.
    #[tactic(auto, unfolding(crate::specs::Results::fresh))]
    pub fn fresh(firmware: u16, protocol: u16) -> Gateway
        ensures { result ≡ fresh firmware protocol }
    {
        Gateway {
            receivers: Receivers::fresh(),
            table: Table::fresh(),
            queue: Queue::fresh(),
            properties: Properties::fresh(firmware, protocol),
        }
    }

    // Adds a device after the last, or refuses it.
    #[tactic(auto, unfolding(crate::specs::Calls::add_row, crate::specs::Calls::add_row_by))]
    pub fn add(mut self, row: Row) -> Added
        ensures { result ≡ adding self (add_row (view self) row) }
    {
        match self.table.add(row) {
            Ok(table) => {
                self.table = table;
                Added {
                    gateway: self,
                    answer: Ok(()),
                }
            }
            Err(why) => Added {
                gateway: self,
                answer: Err(why),
            },
        }
    }

    // One second passes.
    #[tactic(auto, unfolding(crate::specs::Calls::tick, updates::specs::Tick::tick))]
    pub fn tick(mut self) -> Ticked
        ensures { result ≡ ticking self (tick (view self)) }
    {
        let ticked = self.queue.tick();
        self.queue = ticked.queue;
        Ticked {
            gateway: self,
            fields: ticked.fields,
        }
    }

    // The update to be tried next.
    #[tactic(auto, unfolding(crate::specs::Calls::head_of, crate::specs::Calls::head_in))]
    pub fn head(self) -> Result<Waiting, HeadRefusal>
        ensures { result ≡ head_of (view self) }
    {
        let update = self.queue.head().ok_or(HeadRefusal::NoneWaits)?;
        Ok(Waiting {
            line: Line::of(update.line),
            field: update.field,
            value: update.value,
        })
    }

    // The owner sets the network error.
    #[tactic(auto, unfolding(crate::specs::Calls::set_network_error))]
    pub fn set_network_error(mut self, error: u16) -> Gateway
        ensures { result ≡ put self (set_network_error (view self) error).effect }
    {
        self.properties = self.properties.with_error(error);
        self
    }

    // The owner has the stored date checked: one that is neither valid nor NA becomes NA.
    #[tactic(auto, unfolding(crate::specs::Calls::check_date))]
    pub fn check_date(mut self) -> Gateway
        ensures { result ≡ put self (check_date (view self)).effect }
    {
        self.properties = self.properties.with_checked_date();
        self
    }
}
