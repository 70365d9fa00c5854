// The curve of a close.
ghost use Rattle.std.specs.Prelude.{◌≡◌, ℕ, ◌≤◌, length};
ghost use Rattle.closing.specs.Billing.{balances_of, Bills, ComesTo};
ghost use Rattle.closing.specs.Cases.{case_in};
ghost use Rattle.closing.specs.Closing.{bill, Billed as Bill, closing_tests};
ghost use Rattle.closing.specs.Periods.{Closed, Curve, PeriodClosed, SharingAt, weight_by};
ghost use Rattle.closing.specs.Testing.{answer_of};
ghost use Rattle.vocabulary.specs.Answers.{first_met};

use crate::balance::{Balance, Billed, Source};
use crate::billing_period::BillingPeriod;
use crate::figures::BillingFigures;
use crate::period::{ClosedHour, PeriodShare};
use official_time::Hour;
use profile::Profile;
use tariff::Calendar;
use vocabulary::{Refusal, Wh};

impl<'a, C: Calendar, P: Profile> BillingPeriod<'a, C, P> {
    // What an hour weighs among those that share: the energy of a read one, the profile's weight of a missing one.
    fn weight_at(&self, number: Hour, hour: Option<Wh>) -> u64
        ensures { result ≡ weight_by ((P.weights self.now.profile.now).weight number.number) hour }
    {
        match hour {
            Some(energy) => energy.0,
            None => self.profile.weight(number).map_or(0, u64::from),
        }
    }

    // Closes the hours of one tariff period: the places of its hours are written, the others stay as they were.
    fn close_period(&self, period: usize, mut share: PeriodShare, places: &mut [ClosedHour])
        requires room { length self.now.hours.now ≤ length places.old }
        requires begun { (b : Bill) × SharingAt (case_in C.timetable P.weights self.now) b period 0 share }
        ensures { (b : Bill) → SharingAt (case_in C.timetable P.weights self.now) b period 0 share → PeriodClosed (case_in C.timetable P.weights self.now) b period (length self.now.hours.now) places.old places.new }
    {
        for (place, &energy) in self.hours.iter().enumerate() {
            let hour = self.hour_at(place);
            if self.calendar.period(hour) == period {
                places[place] = share.give(energy, self.weight_at(hour, energy));
            }
        }
    }

    // Closes the hours of all tariff periods, period after period.
    fn close_all(&self, figures: &BillingFigures, billed: Billed, places: &mut [ClosedHour])
        requires room { length self.now.hours.now ≤ length places.old }
        requires figures { ComesTo (case_in C.timetable P.weights self.now) figures.now }
        requires billed { (b : Bill) × (Bills b billed × ((p : ℕ) → b.kwh p ≤ 82500)) }
        ensures { (b : Bill) → Bills b billed → Curve (case_in C.timetable P.weights self.now) b (length self.now.hours.now) places.old places.new }
    {
        for i in 0..figures.periods {
            let share = PeriodShare::begin(
                figures.by_period[i],
                billed.balance.kwh[i],
                billed.source,
            );
            self.close_period(i + 1, share, places);
        }
    }

    // Closes the hours by what is billed of the balances, whose sources are in their order, from remote on: each hour is
    // closed in its place, and places beyond stay as they were. Gives the source of what is billed. Where a test stops
    // the close, every place stays as it was.
    pub fn close(
        &self,
        balances: [Option<Balance>; 5],
        places: &mut [ClosedHour],
    ) -> Result<Source, Refusal>
        requires room { length self.now.hours.now ≤ length places.old }
        requires small { (p : ℕ) → (bill (case_in C.timetable P.weights self.now) (balances_of balances)).kwh p ≤ 82500 }
        ensures answer { answer_of result ≡ first_met (closing_tests (case_in C.timetable P.weights self.now) (balances_of balances)) }
        ensures curve { Closed (case_in C.timetable P.weights self.now) (balances_of balances) (length self.now.hours.now) places.old places.new result }
    {
        let figures = self.figures();
        let billed = figures
            .choose_bill(balances)
            .ok_or(Refusal::NothingToShare)?;
        figures.check_bill(billed)?;
        self.close_all(&figures, billed, places);
        Ok(billed.source)
    }
}
