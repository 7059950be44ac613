// A date and time, and when it is valid.
ghost use Rattle.std.specs.Prelude.{◌≡◌};
ghost use Rattle.dates.specs.Date.{day_valid, time_valid, valid, no_date, valid_or};

use crate::calendar::days_in;

// A date and time, minute by minute.
#[repr(C)]
#[derive(Clone, Copy)]
pub struct Date {
    pub year: u16,
    pub month: u8,
    pub day: u8,
    pub weekday: u8,
    pub hour: u8,
    pub minute: u8,
}

impl Date {
    // Not available, in every part.
    #[tactic(auto, unfolding(crate::specs::Date::no_date))]
    pub fn none() -> Date
        ensures { result ≡ no_date }
    {
        Date {
            year: 0xFFFF,
            month: 0xFF,
            day: 0xFF,
            weekday: 0xFF,
            hour: 0xFF,
            minute: 0xFF,
        }
    }

    // Year and month within their ranges, and the day there is in that month of that year.
    #[tactic(auto, unfolding(crate::specs::Date::day_valid, crate::specs::Date::is_between))]
    fn day_valid(self) -> bool
        ensures { result ≡ day_valid self }
    {
        (2000..=2255).contains(&self.year)
            && (1..=12).contains(&self.month)
            && (1..=days_in(self.year, self.month)).contains(&self.day)
    }

    // Hour and minute, each within its range.
    #[tactic(auto, unfolding(crate::specs::Date::time_valid, crate::specs::Date::is_between))]
    fn time_valid(self) -> bool
        ensures { result ≡ time_valid self }
    {
        (0..=23).contains(&self.hour) && (0..=59).contains(&self.minute)
    }

    // A day that there is, a weekday and a time, each within its range.
    #[tactic(auto, unfolding(crate::specs::Date::valid, crate::specs::Date::is_between))]
    fn valid(self) -> bool
        ensures { result ≡ valid self }
    {
        self.day_valid() && (1..=7).contains(&self.weekday) && self.time_valid()
    }

    // A valid date itself, else the other one.
    #[tactic(auto, unfolding(crate::specs::Date::valid_or))]
    pub fn valid_or(self, other: Date) -> Date
        ensures { result ≡ valid_or self other }
    {
        if self.valid() { self } else { other }
    }
}
