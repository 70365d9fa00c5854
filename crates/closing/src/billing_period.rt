// The hours of a billing period, and what they come to.
ghost use Rattle.closing.specs.Lent.{Lent};

use crate::figures::{BillingFigures, Figures};
use official_time::Hour;
use profile::Profile;
use tariff::Calendar;
use vocabulary::Wh;

// The hours of a billing period from the first on, each read or missing, with the calendar and the profile that they go
// by: at most 1,500, each an hour of official time, each with at most 55,000 Wh.
#[derive(Drop)]
pub struct BillingPeriod<'a, C, P> {
    pub(crate) first: Hour,
    pub(crate) hours: &'a [Option<Wh>],
    pub(crate) calendar: &'a C,
    pub(crate) profile: &'a P,
    ghost lent: { Lent first.number hours.now },
}

impl<'a, C: Calendar, P: Profile> BillingPeriod<'a, C, P> {
    ghost use Rattle.std.specs.Prelude.{◌≡◌, ◌+◌, ◌<◌, length, MatchOption};
    ghost use Rattle.closing.specs.Billing.{ComesTo};
    ghost use Rattle.closing.specs.Cases.{case_in};
    ghost use Rattle.closing.specs.Closing.{any_missing as missing_one};
    ghost use Rattle.closing.specs.Lent.{figures_of, totals};

    // None where there are more hours, one is past the last, or has more energy.
    pub fn new(
        first: Hour,
        hours: &'a [Option<Wh>],
        calendar: &'a C,
        profile: &'a P,
    ) -> Option<BillingPeriod<'a, C, P>>
        ensures { MatchOption result (Lent first.number hours.now → ⊥) (λ made. (made.first ≡ first) × (made.hours.now ≡ hours.now) × (made.calendar.now ≡ calendar.now) × (made.profile.now ≡ profile.now)) }
    {
        let is_small = |hour: &Option<Wh>| hour.is_none_or(|energy| energy.0 <= 55_000);
        if hours.len() <= 1500
            && first.number() as usize + hours.len() <= 876_600
            && hours.iter().all(is_small)
        {
            Some(BillingPeriod {
                first,
                hours,
                calendar,
                profile,
            })
        } else {
            None
        }
    }

    // The hour at a place.
    pub(crate) fn hour_at(&self, place: usize) -> Hour
        requires { place < length self.now.hours.now }
        ensures { result.number ≡ self.now.first.number + place }
    {
        Hour::new(self.first.number() + place as u32).unwrap()
    }

    // The figures of a tariff period.
    fn period_figures(&self, period: usize) -> Figures
        ensures { totals result ≡ figures_of (case_in C.timetable P.weights self.now) period }
    {
        let mut figures = Figures::new();
        for (place, &energy) in self.hours.iter().enumerate() {
            let hour = self.hour_at(place);
            if self.calendar.period(hour) == period {
                figures = match energy {
                    Some(energy) => figures.with_read(energy),
                    None => figures.with_missing(self.profile.weight(hour)),
                };
            }
        }
        figures
    }

    // Whether an hour is missing.
    fn any_missing(&self) -> bool
        ensures { result ≡ missing_one (case_in C.timetable P.weights self.now) }
    {
        self.hours.contains(&None)
    }

    // The figures of all tariff periods.
    pub(crate) fn figures(&self) -> BillingFigures
        ensures { ComesTo (case_in C.timetable P.weights self.now) result }
    {
        BillingFigures {
            periods: self.calendar.periods(),
            any_missing: self.any_missing(),
            by_period: [
                self.period_figures(1),
                self.period_figures(2),
                self.period_figures(3),
            ],
        }
    }
}
