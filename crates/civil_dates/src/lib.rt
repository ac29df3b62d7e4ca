// Dates of the Gregorian calendar, and days counted from 1970-01-01. docs/RULES.md, 13.

#![tactic(auto)]

ghost use Rattle.std.specs.Prelude.{◌≡◌, ◌≤◌, ◌<◌};
ghost use Rattle.civil_dates.specs.Parts.{total, part};
ghost use Rattle.civil_dates.specs.Dates.{leap, month_days, month_long, year_long, last_day, IsDate, is_date, day_number, date_of};

// A year, a month of it from 1 on, and a day of that from 1 on.
#[derive(Clone, Copy)]
pub struct Date {
    pub year: usize,
    pub month: usize,
    pub day: usize,
}

// So many whole years or months, and the days behind them.
#[derive(Clone, Copy)]
pub struct Part {
    pub whole: usize,
    pub rest: usize,
}

fn is_leap(year: usize) -> bool
    ensures { result ≡ leap year }
{
    (year % 4 == 0) & ((year % 100 != 0) | (year % 400 == 0))
}

pub fn month_days(year: usize, month: usize) -> usize
    ensures { result ≡ month_days year month }
{
    if month == 2 {
        if is_leap(year) {
            return 29;
        }
        return 28;
    }
    if (month == 4) | ((month == 6) | ((month == 9) | (month == 11))) {
        return 30;
    }
    31
}

fn year_days(year: usize) -> usize
    ensures { result ≡ total (month_long year) 12 }
{
    if is_leap(year) {
        return 366;
    }
    365
}

// The years from 1970 on that are over before a day. A `while`: what it counts down are days, not years.
fn year_of(day: usize) -> Part
    requires { day ≤ last_day }
    ensures { result ≡ part year_long day }
{
    let mut whole = 0;
    let mut rest = day;
    let mut long = year_days(1970);
    while long <= rest {
        rest -= long;
        whole += 1;
        long = year_days(1970 + whole);
    }
    Part { whole, rest }
}

// The months of a year that are over before a day of it. A `while`: what it counts down are days, not months.
fn month_of(year: usize, day: usize) -> Part
    requires { day < total (month_long year) 12 }
    ensures { result ≡ part (month_long year) day }
{
    let mut whole = 0;
    let mut rest = day;
    let mut long = month_days(year, 1);
    while long <= rest {
        rest -= long;
        whole += 1;
        long = month_days(year, whole + 1);
    }
    Part { whole, rest }
}

// The date of a day up to 9999-12-31.
pub fn date_of(day: usize) -> Date
    requires { day ≤ last_day }
    ensures { result ≡ date_of day }
{
    let years = year_of(day);
    let year = 1970 + years.whole;
    let months = month_of(year, years.rest);
    Date {
        year,
        month: months.whole + 1,
        day: months.rest + 1,
    }
}

// Whether there is such a day in or after 1970.
pub fn is_date(date: Date) -> bool
    ensures { result ≡ is_date date }
{
    let days = month_days(date.year, date.month);
    (1970 <= date.year)
        & ((1 <= date.month) & ((date.month <= 12) & ((1 <= date.day) & (date.day <= days))))
}

// The days of so many years from 1970 on.
fn years_long(years: usize) -> usize
    requires { years < 8030 }
    ensures { result ≡ total year_long years }
{
    let mut days = 0;
    for whole in 0..years {
        days += year_days(1970 + whole);
    }
    days
}

// The days of the first so many months of a year.
fn months_long(year: usize, months: usize) -> usize
    requires { months < 12 }
    ensures { result ≡ total (month_long year) months }
{
    let mut days = 0;
    for whole in 0..months {
        days += month_days(year, whole + 1);
    }
    days
}

// How many days after 1970-01-01 a date up to 9999-12-31 is.
pub fn day_number(date: Date) -> usize
    requires { IsDate date × (date.year ≤ 9999) }
    ensures { result ≡ day_number date }
{
    let years = years_long(date.year - 1970);
    let months = months_long(date.year, date.month - 1);
    years + (months + (date.day - 1))
}
