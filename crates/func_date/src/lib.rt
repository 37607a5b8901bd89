//! The functions of dates.
//!
//! [`dates`] is the value of a [`DateFn`] of its arguments, and [`DateFn::named`] the function of a word. A date is
//! a serial number: 0 is 30 December 1899, and [`LAST_SERIAL`] is 31 December 9999. Months and days run over
//! any distance, and only results are tested: `DATE(9999, 13, -10)` is a date.
//!
//! The calendar of single days is the kit's `jiff_core`. Since months and days run past its years, months are
//! counted from a January so far back that no argument reaches it, in cycles of 400 years, each as the calendar
//! has it. The laws say that months begin and dates lie as the calendar has them.
#![tactic(auto)]

mod calendar;
mod date;
mod function;
mod laws;
mod signature;

pub use calendar::{DAYS_BEFORE, YEARS_BEFORE, month_start};
pub use date::{LAST_SERIAL, dates};
pub use function::DateFn;
pub use laws::{
    cycles_repeat, dates_are_the_calendars, months_are_the_calendars, months_have_their_lengths,
    serials_begin,
};
