// What each function of dates answers.
ghost use Rattle.std.specs.Prelude.{◌≡◌, ◌<◌, ◌≤◌, ◌^◌, ◌+◌, ◌-◌, ◌*◌, ◌-ℤ◌, ◌*ℤ◌, Ok, pos, IfOk, unsigned_abs};
ghost use Rattle.jiff_core.specs.Date.{epoch_day};
ghost use Rattle.func_date.specs.Calendar.{calendar_month, calendar_year};
ghost use Rattle.fix_num.specs.declared.number.TheConstants.{ONE};
ghost use Rattle.func_args.specs.Answers.{gives};
ghost use Rattle.func_date.specs.Dates.{counted_answer, date_answer, date_value, dated, day_answer, day_number, days_answer, edate_answer, eomonth_answer, month_answer, today_answer, weekday_answer, year_answer, day_months_on, end_months_on, length_of, month_number, month_of, months_on, place_in_month, serial_in, weekday_of, year_given};

use crate::calendar::{DAYS_BEFORE, YEARS_BEFORE, month_start};
use crate::function::DateFn;
use crate::signature::{one_whole, three_wholes, two_wholes, whole_and_kind};
use cell_value::{Arg, FaultKind, Scalar};
use fix_num::Fixed;
use func_args::{counted, number_value};
use jiff_core::civil::Date;
use std::alloc::AllocError;

/// The serial number of the last date, 31 December 9999.
pub const LAST_SERIAL: u64 = 2_958_465;

// How many days the calendar's library counts before serial number 0: from 1 January -9999 on.
const DAYS_FROM_FIRST: u32 = 4_346_018;

// A date, or `#NUM!` where the number is none.
fn dated(serial: i64) -> Result<u64, FaultKind>
    ensures date { result ≡ dated serial }
    ensures small { IfOk result (λ date. date ≤ LAST_SERIAL) }
{
    if serial < 0 || serial > LAST_SERIAL as i64 {
        Err(FaultKind::Num)
    } else {
        Ok(serial.unsigned_abs())
    }
}

// The year that was given, with 1900 added to one below 1900.
fn year_given(year: i64) -> Result<u64, FaultKind>
    ensures year { result ≡ year_given year }
    ensures small { IfOk result (λ y. y ≤ 9999) }
{
    if year < 0 || year > 9999 {
        return Err(FaultKind::Num);
    }
    let year = year.unsigned_abs();
    Ok(if year < 1900 { year + 1900 } else { year })
}

// The number of a month of a year; months count on from January.
fn month_number(year: u64, month: i64) -> u64
    requires year { year ≤ 9999 }
    requires month { unsigned_abs month < 1000000000000 }
    ensures number { result ≡ month_number year month }
    ensures small { result < 2 ^ 53 }
{
    (((year + YEARS_BEFORE) * 12) as i64 + month - 1).unsigned_abs()
}

// The serial number of a day of a month; days count on from the first.
fn serial_in(month: u64, day: i64) -> i64
    requires month { month < 2 ^ 53 }
    requires day { unsigned_abs day < 1000000000000 }
    ensures { result ≡ serial_in month day }
{
    month_start(month) as i64 + day - (DAYS_BEFORE + 1) as i64
}

// The day of the calendar.
fn civil(date: u64) -> Date
    requires { date ≤ LAST_SERIAL }
    ensures number { epoch_day result ≡ day_number date }
    ensures year { result.year ≡ calendar_year (month_of date) }
    ensures month { result.month ≡ calendar_month (month_of date) }
    ensures day { result.day ≡ place_in_month date + 1 }
    ensures months { month_of date + 1 ≡ (unsigned_abs result.year + YEARS_BEFORE) * 12 + result.month }
{
    Date::from_days_since_min(date as u32 + DAYS_FROM_FIRST)
}

// The month of a date.
fn month_of(date: u64) -> u64
    requires { date ≤ LAST_SERIAL }
    ensures month { result ≡ month_of date }
    ensures small { result < 2 ^ 43 }
{
    let day = civil(date);
    (u64::from(day.year.unsigned_abs()) + YEARS_BEFORE) * 12 + u64::from(day.month) - 1
}

// The year of a date.
fn year_of(date: u64) -> u64
    requires { date ≤ LAST_SERIAL }
    ensures { result ≡ unsigned_abs (calendar_year (month_of date)) }
{
    u64::from(civil(date).year.unsigned_abs())
}

// The month of a date in its year, from 1.
fn month_in_year(date: u64) -> u64
    requires { date ≤ LAST_SERIAL }
    ensures { result ≡ calendar_month (month_of date) }
{
    u64::from(civil(date).month)
}

// The month so many months on.
fn months_on(date: u64, months: i64) -> u64
    requires date { date ≤ LAST_SERIAL }
    requires months { unsigned_abs months < 1000000000000 }
    ensures month { result ≡ months_on date months }
    ensures small { result < 2 ^ 44 }
{
    (month_of(date) as i64 + months).unsigned_abs()
}

// The place of a date in its month, from 1.
fn day_of_month(date: u64) -> u64
    requires { date ≤ LAST_SERIAL }
    ensures day { result ≡ place_in_month date + 1 }
    ensures small { result ≤ 31 }
{
    u64::from(civil(date).day)
}

// How many days the month has.
fn length_of(month: u64) -> u64
    requires { month < 2 ^ 44 }
    ensures length { result ≡ length_of month }
    ensures small { result ≤ 31 }
{
    month_start(month + 1).saturating_sub(month_start(month))
}

// The date of a day of a month.
fn placed(month: u64, day: u64) -> Result<u64, FaultKind>
    requires month { month < 2 ^ 53 }
    requires day { day ≤ 31 }
    ensures { result ≡ dated (serial_in month (pos day)) }
{
    dated(serial_in(month, day as i64))
}

// The same day so many months on, or the month's last.
fn day_months_on(date: u64, months: i64) -> Result<u64, FaultKind>
    requires date { date ≤ LAST_SERIAL }
    requires months { unsigned_abs months < 1000000000000 }
    ensures { result ≡ dated (day_months_on date months) }
{
    let month = months_on(date, months);
    let day = day_of_month(date).min(length_of(month));
    placed(month, day)
}

// The last day of the month so many months on.
fn end_months_on(date: u64, months: i64) -> Result<u64, FaultKind>
    requires date { date ≤ LAST_SERIAL }
    requires months { unsigned_abs months < 1000000000000 }
    ensures { result ≡ dated (end_months_on date months) }
{
    let month = months_on(date, months);
    placed(month, length_of(month))
}

// The day of the week of a date, counted as the kind says.
fn weekday_of(date: u64, kind: Fixed) -> Result<u64, FaultKind>
    requires { date ≤ LAST_SERIAL }
    ensures { result ≡ weekday_of date kind }
{
    let after_monday = u64::from(civil(date).weekday().index());
    match kind.millionths() {
        1_000_000 => Ok((after_monday + 1) % 7 + 1),
        2_000_000 => Ok(after_monday + 1),
        3_000_000 => Ok(after_monday),
        _ => Err(FaultKind::Num),
    }
}

// `DATE(N, N, N)`
fn date(args: &[Arg]) -> Result<u64, FaultKind>
    ensures { result ≡ date_answer args.now }
{
    let (year, month, day) = three_wholes(args)?;
    let year = year_given(year)?;
    dated(serial_in(month_number(year, month), day))
}

// `YEAR(N)`
fn year(args: &[Arg]) -> Result<u64, FaultKind>
    ensures { result ≡ year_answer args.now }
{
    let date = dated(one_whole(args)?)?;
    Ok(year_of(date))
}

// `MONTH(N)`
fn month(args: &[Arg]) -> Result<u64, FaultKind>
    ensures { result ≡ month_answer args.now }
{
    let date = dated(one_whole(args)?)?;
    Ok(month_in_year(date))
}

// `DAY(N)`
fn day_in_month(args: &[Arg]) -> Result<u64, FaultKind>
    ensures { result ≡ day_answer args.now }
{
    let date = dated(one_whole(args)?)?;
    Ok(day_of_month(date))
}

// `WEEKDAY(N [, N])`
fn weekday(args: &[Arg]) -> Result<u64, FaultKind>
    ensures { result ≡ weekday_answer args.now }
{
    let (serial, kind) = whole_and_kind(args)?;
    let date = dated(serial)?;
    weekday_of(date, kind)
}

// `EDATE(N, N)`
fn edate(args: &[Arg]) -> Result<u64, FaultKind>
    ensures { result ≡ edate_answer args.now }
{
    let (serial, months) = two_wholes(args)?;
    let date = dated(serial)?;
    day_months_on(date, months)
}

// `EOMONTH(N, N)`
fn eomonth(args: &[Arg]) -> Result<u64, FaultKind>
    ensures { result ≡ eomonth_answer args.now }
{
    let (serial, months) = two_wholes(args)?;
    let date = dated(serial)?;
    end_months_on(date, months)
}

// `TODAY()`
fn today(args: &[Arg], day: i32) -> Result<u64, FaultKind>
    ensures { result ≡ today_answer args.now day }
{
    match args {
        [] => dated(i64::from(day)),
        _ => Err(FaultKind::Na),
    }
}

// `DAYS(N, N)`
fn days(args: &[Arg]) -> Result<Fixed, FaultKind>
    ensures { result ≡ days_answer args.now }
{
    let (first, second) = two_wholes(args)?;
    let first = dated(first)?;
    let second = dated(second)?;
    days_between(first, second)
}

// The first date less the second, as a number.
fn days_between(first: u64, second: u64) -> Result<Fixed, FaultKind>
    requires first { first ≤ LAST_SERIAL }
    requires second { second ≤ LAST_SERIAL }
    ensures { result ≡ gives ((pos first -ℤ pos second) *ℤ pos ONE) }
{
    let number = Fixed::from_int(first as i64 - second as i64)?;
    Ok(number)
}

// A count as a number.
fn counted_answer(answer: Result<u64, FaultKind>) -> Result<Fixed, FaultKind>
    ensures { result ≡ counted_answer answer }
{
    let count = answer?;
    counted(count)
}

/// The value of a function of dates of its arguments, where the day is the serial number of today.
pub fn dates(function: DateFn, args: &[Arg], day: i32) -> Result<Scalar, AllocError>
    ensures { result ≡ Ok (date_value function args.now day) }
{
    Ok(number_value(match function {
        DateFn::Date => counted_answer(date(args)),
        DateFn::Year => counted_answer(year(args)),
        DateFn::Month => counted_answer(month(args)),
        DateFn::Day => counted_answer(day_in_month(args)),
        DateFn::Weekday => counted_answer(weekday(args)),
        DateFn::Days => days(args),
        DateFn::EDate => counted_answer(edate(args)),
        DateFn::EoMonth => counted_answer(eomonth(args)),
        DateFn::Today => counted_answer(today(args, day)),
    }))
}
