// What happens in a tariff period, and what stops a close there.
ghost use Rattle.std.specs.Prelude.{◌≡◌, ℕ, ◌*◌, Bool, nat_le};
ghost use Rattle.closing.specs.Billing.{Bills, ComesTo, source_number};
ghost use Rattle.closing.specs.Closing.{Billed as Bill, Case, some_period};
ghost use Rattle.closing.specs.Lent.{figures_of, Totals, totals};
ghost use Rattle.closing.specs.Testing.{alters, answer_of, bill_tests, completes, rule_by};
ghost use Rattle.vocabulary.specs.Answers.{first_met};

use crate::balance::{Billed, Source};
use crate::figures::{BillingFigures, Figures};
use vocabulary::{KWh, Refusal, Wh};

// Read hours are kept or share the balance anew; where some are missing, these are filled from what the read hours
// leave of the balance, or, where those exceed it by over 1 kWh, get nothing.
#[derive(Clone, Copy)]
pub(crate) enum Rule {
    Keep,
    Rescale,
    Fill,
    CutDown,
}

impl Rule {
    // The rule of a tariff period, by its figures and its balance.
    pub(crate) fn of(figures: Figures, kwh: KWh) -> Rule
        ensures { result ≡ rule_by figures.missing figures.read (1000 * kwh.0) }
    {
        let read = figures.read;
        let billed = Wh::from(kwh).0;
        if figures.missing == 0 {
            if read.abs_diff(billed) <= 1000 {
                Rule::Keep
            } else {
                Rule::Rescale
            }
        } else if read <= billed + 1000 {
            Rule::Fill
        } else {
            Rule::CutDown
        }
    }

    // Whether read hours change.
    pub(crate) fn changes(self) -> bool
        ensures { result ≡ alters self }
    {
        matches!(self, Rule::Rescale | Rule::CutDown)
    }

    // Whether missing hours share energy.
    pub(crate) fn fills(self) -> bool
        ensures { result ≡ completes self }
    {
        matches!(self, Rule::Fill)
    }
}

impl Source {
    // Whether a balance of this source is an estimate or the customer's own reading.
    pub fn is_estimate(self) -> bool
        ensures { result ≡ nat_le 3 (source_number self) }
    {
        match self {
            Source::Own | Source::History | Source::Factor => true,
            Source::Hours | Source::Remote | Source::Sight => false,
        }
    }
}

impl BillingFigures {
    // Whether a tariff period passes a test of its figures and of what is billed there.
    fn some_period<F: Fn(Figures, KWh) -> bool>(&self, billed: Billed, passes: F) -> bool
        requires { F.IsAlwaysCallable passes }
        ensures { (test : Totals → ℕ → Bool) → ((f k answer : _) → F.post passes f k answer → answer ≡ test (totals f) k.0) → (c : Case) (b : Bill) → ComesTo c self.now → Bills b billed → result ≡ some_period c (λ p. test (figures_of c p) (b.kwh p)) }
    {
        self.by_period
            .iter()
            .zip(&billed.balance.kwh)
            .take(self.periods)
            .any(|(&figures, &kwh)| passes(figures, kwh))
    }

    // The tests of what is billed, each in all tariff periods before the next: as many periods as the calendar has (25),
    // no energy without hours (26), no estimate or own reading that would change read hours (27), a weight for each
    // missing hour that has energy to share (15).
    pub(crate) fn check_bill(&self, billed: Billed) -> Result<(), Refusal>
        ensures { (c : Case) (b : Bill) → ComesTo c self.now → Bills b billed → answer_of result ≡ first_met (bill_tests c b) }
    {
        if billed.balance.periods != self.periods {
            return Err(Refusal::PeriodCountDiffers);
        }
        if self.some_period(billed, |figures, kwh| figures.hours == 0 && kwh.0 > 1) {
            return Err(Refusal::PeriodWithoutHours);
        }
        if self.some_period(billed, |figures, kwh| {
            billed.source.is_estimate() && Rule::of(figures, kwh).changes()
        }) {
            return Err(Refusal::EstimateContradicted);
        }
        if self.some_period(billed, |figures, kwh| {
            Rule::of(figures, kwh).fills()
                && figures.read < Wh::from(kwh).0
                && figures.weightless > 0
        }) {
            return Err(Refusal::NoWeight);
        }
        Ok(())
    }
}
