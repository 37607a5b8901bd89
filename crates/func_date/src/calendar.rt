// The calendar by numbers of days and months.
ghost use Rattle.std.specs.Prelude.{◌≡◌, ◌<◌, ◌^◌};
ghost use Rattle.func_date.specs.Calendar.{days_in_cycle, month_start};

use jiff_core::civil::Date;

/// How many years are counted before the year 0: a multiple of 400, so that the calendar repeats.
pub const YEARS_BEFORE: u64 = 400_000_000_000;

/// How many days are counted before serial number 0, which is 30 December 1899.
pub const DAYS_BEFORE: u64 = 146_097_000_693_959;

/// How many days precede the first of a month.
pub fn month_start(n: u64) -> u64
    requires { n < 2 ^ 53 }
    ensures start { result ≡ month_start n }
    ensures small { result < 2 ^ 58 }
{
    146_097 * (n / 4800) + days_in_cycle(n % 4800)
}

// How many days of a cycle of 400 years precede one of its months.
fn days_in_cycle(n: u64) -> u64
    requires { n < 4800 }
    ensures days { result ≡ days_in_cycle n }
    ensures small { result < 146097 }
{
    let first = Date::constrain((n / 12) as i16, (n % 12 + 1) as u8, 1);
    u64::from(first.days_since_min()).saturating_sub(u64::from(Date::ZERO.days_since_min()))
}
