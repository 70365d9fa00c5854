// Dates and the numbers of days.
ghost use Rattle.std.specs.Prelude.{◌≡◌, ◌+◌, ◌-◌, ◌<◌, ◌≤◌, true, false, MatchOption, MatchResult};
ghost use Rattle.official_time.specs.Dates.{CountsDays, day_of, days_of_months, is_date, leap_day, month_days, weekday, year_days, days_of_years};
ghost use Rattle.vocabulary.specs.Refusals.{notice, plain};

use vocabulary::Refusal;

// A date as it is written; whether there is such a date, `day` says.
#[derive(Clone, Copy, PartialEq, Eq, Debug)]
pub struct Date {
    pub year: u32,
    pub month: u32,
    pub day: u32,
}

// A day of 2000 to 2099 by its number: 0 is 2000/01/01.
#[derive(Clone, Copy, PartialEq, Eq, PartialOrd, Ord, Debug)]
pub struct Day {
    number: u32,
    ghost counted: { number < 36525 },
}

#[derive(Clone, Copy, PartialEq, Eq, Debug)]
pub enum Weekday {
    Monday,
    Tuesday,
    Wednesday,
    Thursday,
    Friday,
    Saturday,
    Sunday,
}

// 1 in a leap year, else 0: from 2000 to 2099 every fourth year has a 29 February.
fn leap_day(year: u32) -> u32
    ensures { result ≡ leap_day year }
{
    if year % 4 == 0 { 1 } else { 0 }
}

// The days of a month; none where there is no such month.
fn month_days(year: u32, month: u32) -> u32
    ensures { result ≡ month_days year month }
{
    match month {
        1 | 3 | 5 | 7 | 8 | 10 | 12 => 31,
        4 | 6 | 9 | 11 => 30,
        2 => 28 + leap_day(year),
        _ => 0,
    }
}

// The days of a year before a month of it.
fn days_before(year: u32, month: u32) -> u32
    requires { (1 ≤ month) × (month ≤ 12) }
    ensures value { result ≡ days_of_months year month }
    ensures bound { result ≤ 335 }
{
    let leap_day = leap_day(year);
    match month {
        1 => 0,
        2 => 31,
        3 => 59 + leap_day,
        4 => 90 + leap_day,
        5 => 120 + leap_day,
        6 => 151 + leap_day,
        7 => 181 + leap_day,
        8 => 212 + leap_day,
        9 => 243 + leap_day,
        10 => 273 + leap_day,
        11 => 304 + leap_day,
        _ => 334 + leap_day,
    }
}

// The month in which a day of a year lies, days counted from 0.
fn month_at(year: u32, day: u32) -> u32
    requires { day < year_days year }
    ensures month { (1 ≤ result) × (result ≤ 12) }
    ensures from { days_of_months year result ≤ day }
    ensures to { day < days_of_months year result + month_days year result }
{
    let leap_day = leap_day(year);
    if day < 31 {
        return 1;
    }
    if day < 59 + leap_day {
        return 2;
    }
    match day - leap_day {
        59..=89 => 3,
        90..=119 => 4,
        120..=150 => 5,
        151..=180 => 6,
        181..=211 => 7,
        212..=242 => 8,
        243..=272 => 9,
        273..=303 => 10,
        304..=333 => 11,
        _ => 12,
    }
}

impl Date {
    // Whether there is such a date from 2000 to 2099.
    fn is_real(self) -> bool
        ensures value { result ≡ is_date self }
        ensures parts { result ≡ true → (2000 ≤ self.year) × (self.year ≤ 2099) × (1 ≤ self.month) × (self.month ≤ 12) × (1 ≤ self.day) × (self.day ≤ 31) }
    {
        (2000..=2099).contains(&self.year)
            && (1..=month_days(self.year, self.month)).contains(&self.day)
    }

    // The day of this date; refused with 16 where there is no such date from 2000 to 2099.
    pub fn day(self) -> Result<Day, Refusal>
        ensures cases { MatchResult result (λ d. (is_date self ≡ true) × (d.number ≡ day_of self)) (λ e. (is_date self ≡ false) × (notice e ≡ plain 16)) }
        ensures counts { CountsDays }
    {
        if !self.is_real() {
            return Err(Refusal::NoSuchDate);
        }
        let years = self.year - 2000;
        let number = days_before_year(years) + days_before(self.year, self.month) + (self.day - 1);
        Ok(Day { number })
    }
}

// The days of the first years from 2000 on, of which every fourth is a leap year, and 2000 the first.
fn days_before_year(years: u32) -> u32
    requires { years < 100 }
    ensures value { result ≡ days_of_years years }
    ensures bound { result < 36525 }
{
    365 * years + (years + 3) / 4
}

impl Day {
    // The day of a number; none from 36,525 on.
    pub fn new(number: u32) -> Option<Day>
        ensures { MatchOption result (36525 ≤ number) (λ d. d.number ≡ number) }
    {
        if number < 36525 {
            Some(Day { number })
        } else {
            None
        }
    }

    // The day of a number that is known to be one.
    pub(crate) fn at(number: u32) -> Day
        requires { number < 36525 }
        ensures { result.number ≡ number }
    {
        Day { number }
    }

    pub fn number(self) -> u32
        ensures value { result ≡ self.number }
        ensures bound { result < 36525 }
    {
        self.number
    }

    // The date of the day, the only one.
    pub fn date(self) -> Date
        ensures real { is_date result ≡ true }
        ensures value { day_of result ≡ self.number }
        ensures only { (d : Date) → is_date d ≡ true → day_of d ≡ self.number → d ≡ result }
    {
        // 1,461 days are four years, of which the first has 366.
        let years = 4 * self.number / 1461;
        let year = 2000 + years;
        let in_year = self.number - days_before_year(years);
        let month = month_at(year, in_year);
        Date {
            year,
            month,
            day: in_year - days_before(year, month) + 1,
        }
    }

    pub fn weekday(self) -> Weekday
        ensures { result ≡ weekday self.number }
    {
        weekday_at(self.number % 7)
    }
}

// The weekday of one of the first seven days, and so of every seventh from there.
fn weekday_at(day: u32) -> Weekday
    requires { day < 7 }
    ensures { result ≡ weekday day }
{
    match day {
        0 => Weekday::Saturday,
        1 => Weekday::Sunday,
        2 => Weekday::Monday,
        3 => Weekday::Tuesday,
        4 => Weekday::Wednesday,
        5 => Weekday::Thursday,
        _ => Weekday::Friday,
    }
}
