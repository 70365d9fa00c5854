// The calendars of the tariffs 2.0A, 2.0DHA and 2.0TD.
ghost use Rattle.std.specs.Prelude.{◌≡◌, ◌<◌, ◌≤◌, length};
ghost use Rattle.tariff.specs.Calendars.{timetable_20a, timetable_20dha, timetable_20td};
ghost use Rattle.tariff.specs.Rules.{by_place, free_day, is_6_january, is_weekend, listed, SixJanuaryLaw};

use crate::calendar::Calendar;
use official_time::{Day, Hour, Season, Weekday};
use vocabulary::AtMost;

// 2.0A: one period.
#[derive(Clone, Copy, Debug)]
pub struct Calendar20A;

impl Calendar for Calendar20A {
    ghost timetable = { λ _. timetable_20a };

    fn periods(&self) -> usize {
        1
    }

    fn period(&self, _hour: Hour) -> usize {
        1
    }
}

// 2.0DHA: ten hours of the day in period 1, an hour later in summer, and the night in period 2.
#[derive(Clone, Copy, Debug)]
pub struct Calendar20Dha;

impl Calendar for Calendar20Dha {
    ghost timetable = { λ _. timetable_20dha };

    fn periods(&self) -> usize {
        2
    }

    fn period(&self, hour: Hour) -> usize {
        match (hour.season(), hour.clock_place()) {
            (Season::Winter, 13..=22) | (Season::Summer, 14..=23) => 1,
            _ => 2,
        }
    }
}

// Up to 16 days that are holidays; a 17th is refused.
pub type Holidays<'a> = AtMost<'a, Day, 16>;

// 2.0TD: period 3 at night and on free days, periods 1 and 2 by the clock on the others.
#[derive(Clone, Copy, Debug)]
pub struct Calendar20Td<'a> {
    holidays: Holidays<'a>,
}

impl<'a> Calendar20Td<'a> {
    pub fn new(holidays: Holidays<'a>) -> Calendar20Td<'a>
        ensures value { result.holidays ≡ holidays.entry }
        ensures few { length result.holidays.items.now ≤ 16 }
        ensures january { SixJanuaryLaw }
    {
        Calendar20Td { holidays }
    }

    // Saturdays, Sundays, 6 January and the holidays.
    fn is_free(&self, day: Day) -> bool
        ensures { result ≡ free_day self.now.holidays.items.now day.number }
    {
        is_weekend(day.weekday()) || is_6_january(day) || self.is_holiday(day)
    }

    fn is_holiday(&self, day: Day) -> bool
        ensures { result ≡ listed day.number self.now.holidays.items.now }
    {
        self.holidays.as_slice().contains(&day)
    }
}

fn is_weekend(weekday: Weekday) -> bool
    ensures { result ≡ is_weekend weekday }
{
    matches!(weekday, Weekday::Saturday | Weekday::Sunday)
}

fn is_6_january(day: Day) -> bool
    ensures { result ≡ is_6_january day.number }
{
    let date = day.date();
    date.month == 1 && date.day == 6
}

fn by_place(place: u32) -> usize
    ensures { result ≡ by_place place }
{
    match place {
        1..=8 => 3,
        11..=14 | 19..=22 => 1,
        _ => 2,
    }
}

impl Calendar for Calendar20Td<'_> {
    ghost timetable = { λ c. timetable_20td c.holidays.items.now };

    fn periods(&self) -> usize {
        3
    }

    fn period(&self, hour: Hour) -> usize {
        if self.is_free(hour.clock_day()) {
            3
        } else {
            by_place(hour.clock_place())
        }
    }
}
