// What the gateway itself holds besides table and queue, and what an Update changes of it.
ghost use Rattle.std.specs.Prelude.{◌≡◌};
ghost use Rattle.trpc.specs.Properties.{fresh, with_error, with_reporting, with_date, with_checked_date, updated, after_record};

use crate::methods::OnUpdate;
use crate::{bytes, services};
use dates::Date;

// The network error, whether it reports, the owner's two numbers, and the stored date.
#[repr(C)]
#[derive(Clone, Copy)]
pub struct Properties {
    pub error: u16,
    pub reporting: bool,
    pub firmware: u16,
    pub protocol: u16,
    pub date: Date,
}

impl Properties {
    // At the start, with the numbers that the owner gives.
    #[tactic(auto, unfolding(crate::specs::Properties::fresh))]
    pub fn fresh(firmware: u16, protocol: u16) -> Properties
        ensures { result ≡ fresh firmware protocol }
    {
        Properties {
            error: 0,
            reporting: false,
            firmware,
            protocol,
            date: Date::none(),
        }
    }

    // With the network error that the owner sets.
    #[tactic(auto, unfolding(crate::specs::Properties::with_error))]
    pub fn with_error(self, error: u16) -> Properties
        ensures { result ≡ with_error self error }
    {
        Properties { error, ..self }
    }

    // With the stored date where it is valid, else with no date. For an owner who took the properties over from a build with
    // another rule for dates.
    #[tactic(auto, unfolding(crate::specs::Properties::with_checked_date))]
    pub fn with_checked_date(self) -> Properties
        ensures { result ≡ with_checked_date self }
    {
        Properties {
            date: self.date.valid_or(Date::none()),
            ..self
        }
    }

    // With reporting on or off, where the value is 1 or 0.
    #[tactic(auto, unfolding(crate::specs::Properties::with_reporting))]
    fn with_reporting(self, value: u8) -> Properties
        ensures { result ≡ with_reporting self value }
    {
        if 1 < value {
            return self;
        }
        Properties {
            reporting: value == 1,
            ..self
        }
    }

    // With the date that was sent, where it is valid.
    #[tactic(auto, unfolding(crate::specs::Properties::with_date))]
    fn with_date(self, sent: Date) -> Properties
        ensures { result ≡ with_date self sent }
    {
        Properties {
            date: sent.valid_or(self.date),
            ..self
        }
    }

    // The properties after an Update, by what it does.
    #[tactic(auto, unfolding(crate::specs::Properties::updated))]
    fn updated(self, update: OnUpdate, content: &[u8]) -> Properties
        ensures { result ≡ updated self update content.now }
    {
        match update {
            OnUpdate::NotUsed | OnUpdate::RepliesCurrent | OnUpdate::Queues => self,
            OnUpdate::SetsReporting => self.with_reporting(bytes::byte_at(content, 5)),
            OnUpdate::SetsDate => self.with_date(bytes::date_in(content)),
        }
    }

    // The properties after a record: only an Update changes them.
    #[tactic(auto, unfolding(crate::specs::Properties::after_record))]
    pub(crate) fn after_record(self, update: OnUpdate, content: &[u8]) -> Properties
        ensures { result ≡ after_record self update content.now }
    {
        if services::is_update(bytes::byte_at(content, 0)) {
            self.updated(update, content)
        } else {
            self
        }
    }
}
