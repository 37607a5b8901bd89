// The functions and their words.
ghost use Rattle.std.specs.Prelude.{◌≡◌};
ghost use Rattle.func_date.specs.Dates.{function_named, function_word, takes_block};

/// A function of dates.
#[derive(Clone, Copy, PartialEq, Eq, Debug)]
pub enum DateFn {
    /// `DATE(N, N, N)`: the date of a year, a month and a day.
    Date,
    /// `YEAR(N)`: the year of a date.
    Year,
    /// `MONTH(N)`: the month of a date, from 1.
    Month,
    /// `DAY(N)`: the day of a date in its month, from 1.
    Day,
    /// `WEEKDAY(N [, N])`: the day of the week.
    Weekday,
    /// `DAYS(N, N)`: the first date less the second.
    Days,
    /// `EDATE(N, N)`: the same day so many months on, or the month's last.
    EDate,
    /// `EOMONTH(N, N)`: the last day of the month so many months on.
    EoMonth,
    /// `TODAY()`: the day handed in.
    Today,
}

impl DateFn {
    /// All functions of dates.
    pub const ALL: [DateFn; 9] = [
        DateFn::Date,
        DateFn::Year,
        DateFn::Month,
        DateFn::Day,
        DateFn::Weekday,
        DateFn::Days,
        DateFn::EDate,
        DateFn::EoMonth,
        DateFn::Today,
    ];

    /// The function's word.
    pub fn word(self) -> &'static str
        ensures { result.now ≡ function_word self }
    {
        match self {
            DateFn::Date => "DATE",
            DateFn::Year => "YEAR",
            DateFn::Month => "MONTH",
            DateFn::Day => "DAY",
            DateFn::Weekday => "WEEKDAY",
            DateFn::Days => "DAYS",
            DateFn::EDate => "EDATE",
            DateFn::EoMonth => "EOMONTH",
            DateFn::Today => "TODAY",
        }
    }

    /// The function that the word names, in capitals.
    pub fn named(text: &str) -> Option<DateFn>
        ensures { result ≡ function_named text.now }
    {
        DateFn::ALL
            .iter()
            .copied()
            .find(|function| function.word() == text)
    }

    /// Whether the argument at this place, from 0, is a list or a block: none is, so a reference stands for
    /// its cell's value.
    pub fn takes_block(self, _at: usize) -> bool
        ensures { result ≡ takes_block self _at }
    {
        false
    }
}
