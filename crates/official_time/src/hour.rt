// Hours of official time, and their place on the clock.
ghost use Rattle.std.specs.Prelude.{◌≡◌, ℕ, ◌+◌, ◌-◌, ◌*◌, ◌/◌, ◌<◌, ◌≤◌, min, true, is_some, IfSome};
ghost use Rattle.official_time.specs.Hours.{clock_day, clock_place, DayLength, flag, GoesOn, InSummer, is_hour, IsLabel, season_flag};
ghost use Rattle.official_time.specs.declared.season.Season.TheVariants.{Summer};

use crate::changes::change_day;
use crate::date::Day;
use crate::label::Label;
use crate::season::Season;

// An hour by its number: hour h ends h hours after 2000/01/01 00:00 winter time.
#[derive(Clone, Copy, PartialEq, Eq, PartialOrd, Ord, Debug)]
pub struct Hour {
    number: u32,
    ghost first: { 1 ≤ number },
    ghost last: { number ≤ 876599 },
}

impl Hour {
    // The hour of a number; none outside 1 to 876,599.
    pub fn new(number: u32) -> Option<Hour>
        ensures test { is_some result ≡ is_hour number }
        ensures value { IfSome result (λ h. h.number ≡ number) }
    {
        if (1..=876_599).contains(&number) {
            Some(Hour { number })
        } else {
            None
        }
    }

    pub fn number(self) -> u32
        ensures value { result ≡ self.number }
        ensures test { is_hour result ≡ true }
    {
        self.number
    }

    // Summer or winter: summer from the last Sunday of March to the last Sunday of October of its year.
    pub fn season(self) -> Season
        ensures value { season_flag result ≡ flag self.number }
        ensures summer { (result ≡ Summer → InSummer self.number) × (InSummer self.number → result ≡ Summer) }
    {
        // The clock changes once in each half-year, to summer in the first of a year.
        let half = self.half_year();
        let changed = self.number >= 24 * change_day(half) + 2;
        if changed == (half % 2 == 0) {
            Season::Summer
        } else {
            Season::Winter
        }
    }

    // The half-year in which the hour ends, counted from 0 at the beginning of 2000: 1,461 days are eight.
    fn half_year(self) -> u32
        ensures value { result ≡ 8 * (self.number / 24) / 1461 }
        ensures bound { result < 200 }
    {
        8 * (self.number / 24) / 1461
    }

    // How many hours the clock of that day and all before it has shown when the hour begins.
    fn clock(self) -> u32
        ensures value { result ≡ self.number + flag self.number - 1 }
        ensures bound { result ≤ 876599 }
    {
        self.number + self.season().flag() - 1
    }

    // The label of the hour, the only one: the date and clock of its end, by the time that is in force then.
    pub fn label(self) -> Label
        ensures value { IsLabel self.number result }
        ensures only { (l : Label) → IsLabel self.number l → l ≡ result }
    {
        let flag = self.season().flag();
        let clock = self.number + flag;
        Label {
            date: Day::at(clock / 24).date(),
            hour: clock % 24,
            minute: 0,
            second: 0,
            flag,
        }
    }

    // The day in which the clock shows the hour.
    pub fn clock_day(self) -> Day
        ensures { result.number ≡ clock_day self.number }
    {
        Day::at(self.clock() / 24)
    }

    // The place of the hour in its clock day, from 1: 1 ends at 01:00 and 24 at midnight.
    pub fn clock_place(self) -> u32
        ensures value { result ≡ clock_place self.number }
        ensures goes_on { self.number < 876599 → GoesOn self.number }
    {
        self.clock() % 24 + 1
    }
}

// The hours of a clock day, from the first to the last.
#[derive(Clone, Copy, Debug)]
pub struct DayHours {
    pub first: Hour,
    pub last: Hour,
}

impl DayHours {
    // The hours that the clock shows in a day: 24, but for the days on which it changes and the last of all.
    pub fn of(day: Day) -> DayHours
        ensures all { (h : ℕ) → is_hour h ≡ true → clock_day h ≡ day.number → (result.first.number ≤ h) × (h ≤ result.last.number) }
        ensures only { (h : ℕ) → result.first.number ≤ h → h ≤ result.last.number → clock_day h ≡ day.number }
        ensures order { result.first.number ≤ result.last.number }
        ensures length { DayLength day.number (result.last.number + 1 - result.first.number) }
    {
        DayHours {
            first: first_of(day),
            last: last_of(day),
        }
    }
}

// By winter time a day that begins in summer begins an hour early.
fn first_of(day: Day) -> Hour
    ensures { result.number ≡ 24 * day.number + 1 - flag (24 * day.number + 1) }
{
    let number = 24 * day.number() + 1;
    Hour {
        number: number - flag_at(number),
    }
}

// And so does a day end that ends in summer. The last day of all lacks its last hour.
fn last_of(day: Day) -> Hour
    ensures { result.number ≡ min (24 * day.number + 24 - flag (24 * day.number + 23)) 876599 }
{
    let number = 24 * day.number() + 23;
    Hour {
        number: (number + 1 - flag_at(number)).min(876_599),
    }
}

fn flag_at(number: u32) -> u32
    requires { (1 ≤ number) × (number ≤ 876599) }
    ensures value { result ≡ flag number }
    ensures bound { result ≤ 1 }
{
    Hour { number }.season().flag()
}
