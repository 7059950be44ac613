// The Gregorian calendar: how many days a month has.
ghost use Rattle.std.specs.Prelude.{◌≡◌};
ghost use Rattle.dates.specs.Calendar.{is_leap, common_days, days_in};

// The days of the months of a common year, January first.
const MONTH_DAYS: [u8; 12] = [31, 28, 31, 30, 31, 30, 31, 31, 30, 31, 30, 31];

// Divisible by 4, and not by 100 unless by 400.
#[tactic(auto, unfolding(crate::specs::Calendar::is_leap))]
fn is_leap(year: u16) -> bool
    ensures { result ≡ is_leap year }
{
    year % 4 == 0 && (year % 100 != 0 || year % 400 == 0)
}

// The days of a month of a common year; 0 where there is no such month.
#[tactic(auto, unfolding(crate::specs::Calendar::common_days))]
fn common_days(month: u8) -> u8
    ensures { result ≡ common_days month }
{
    match usize::from(month).checked_sub(1) {
        Some(place) => MONTH_DAYS.get(place).copied().unwrap_or(0),
        None => 0,
    }
}

// The days of a month of a year.
#[tactic(auto, unfolding(crate::specs::Calendar::days_in))]
pub(crate) fn days_in(year: u16, month: u8) -> u8
    ensures { result ≡ days_in year month }
{
    if month == 2 && is_leap(year) {
        29
    } else {
        common_days(month)
    }
}
