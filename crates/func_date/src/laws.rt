// Laws of the calendar: each function states one, and does nothing.
ghost use Rattle.func_date.specs.Laws.{CyclesRepeat, DatesAreTheCalendars, MonthsAreTheCalendars, MonthsHaveTheirLengths, SerialsBegin};

/// 400 years have 146,097 days.
pub fn cycles_repeat()
    ensures { CyclesRepeat }
{}

/// Each month begins where the one before it ends, after as many days as the calendar gives it.
pub fn months_have_their_lengths()
    ensures { MonthsHaveTheirLengths }
{}

/// From the year 0 on, also past the year 9999, months begin as many days apart as the calendar has.
pub fn months_are_the_calendars()
    ensures { MonthsAreTheCalendars }
{}

/// The year, the month and the day of a date are those of the calendar's day.
pub fn dates_are_the_calendars()
    ensures { DatesAreTheCalendars }
{}

/// The day of serial number 0 is 30 December 1899.
pub fn serials_begin()
    ensures { SerialsBegin }
{}
