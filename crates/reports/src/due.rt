// What is due: the Report to be sent next, how many remain, and what a tick and setting reporting make of it.
ghost use Rattle.std.specs.Prelude.{◌≡◌, length};
ghost use Rattle.devices.specs.Table.{rows_of};
ghost use Rattle.reports.specs.Due.{reports_of, held, fresh_due, taking, minute_reports, ticked, enabled};

use crate::masks::{rows_with, take_lowest};
use devices::Table;

// A Report, and for a device its row, from 0 on.
#[derive(Drop)]
pub enum Report {
    NetworkError,
    DeviceAttributes(usize),
    SlabSetpoint(usize),
    FanPercent(usize),
}

// The ticks of the minute so far, whether the NetworkError is due, and for each method the rows that are due. The promises hold for
// every value of these, also a minute past 59.
#[repr(C)]
#[derive(Clone, Copy)]
pub struct DueReports {
    pub minute: u8,
    pub error: bool,
    pub attributes: u32,
    pub slab: u32,
    pub fan: u32,
}

// The Report to be sent next, where one is due, and what is due without it.
#[derive(Drop)]
pub struct Taken {
    pub next: Option<Report>,
    pub due: DueReports,
}

// The attribute bits of the devices that report: slab, and fan. `devices` keeps its own to itself.
const SLAB: u16 = 4;

const FAN: u16 = 8;

// The ticks of a minute, but for the last.
const LAST: u8 = 59;

// What a minute makes due.
fn minute(error: u16, table: Table) -> DueReports
    ensures { result ≡ held 0 (minute_reports error (rows_of table)) }
{
    let slabs = rows_with(table, SLAB);
    let fans = rows_with(table, FAN);
    DueReports {
        minute: 0,
        error: error != 0,
        attributes: slabs,
        slab: slabs,
        fan: fans,
    }
}

impl DueReports {
    // None due, the minute anew.
    #[tactic(auto, unfolding(crate::specs::Due::fresh_due, crate::specs::Due::held))]
    pub fn fresh() -> DueReports
        ensures { result ≡ fresh_due }
    {
        DueReports {
            minute: 0,
            error: false,
            attributes: 0,
            slab: 0,
            fan: 0,
        }
    }

    // How many remain due.
    pub fn remaining(self) -> usize
        ensures { result ≡ length (reports_of self) }
    {
        let rows = self.attributes.count_ones() + self.slab.count_ones() + self.fan.count_ones();
        (rows + u32::from(self.error)) as usize
    }

    // The Report to be sent next, and what is due without it: NetworkError first, then the lowest row's, in a row in the order of
    // method IDs.
    pub fn take(mut self) -> Taken
        ensures { result ≡ taking self }
    {
        let attributes = self.attributes.trailing_zeros();
        let slab = self.slab.trailing_zeros();
        let fan = self.fan.trailing_zeros();
        let next = if self.error {
            self.error = false;
            Some(Report::NetworkError)
        } else if fan < slab.min(attributes) {
            Some(Report::FanPercent(take_lowest(&mut self.fan)))
        } else if slab < attributes {
            Some(Report::SlabSetpoint(take_lowest(&mut self.slab)))
        } else if attributes < 32 {
            Some(Report::DeviceAttributes(take_lowest(&mut self.attributes)))
        } else {
            None
        };
        Taken { next, due: self }
    }

    // After a second, with reporting, the network error and the devices as they then are.
    pub fn tick(self, reporting: bool, error: u16, table: Table) -> DueReports
        ensures { result ≡ ticked reporting error (rows_of table) self }
    {
        if !reporting {
            return self;
        }
        if self.minute < LAST {
            return DueReports {
                minute: self.minute + 1,
                ..self
            };
        }
        if self.remaining() == 0 {
            return minute(error, table);
        }
        DueReports { minute: 0, ..self }
    }

    // After reporting was set: what it was, and what it is.
    pub fn enable(self, before: bool, after: bool) -> DueReports
        ensures { result ≡ enabled before after self }
    {
        if before && after {
            self
        } else {
            DueReports::fresh()
        }
    }
}
