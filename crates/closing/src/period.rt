// Closing the hours of a tariff period, one after the other.
ghost use Rattle.std.specs.Prelude.{◌≡◌, ℕ, ◌+◌, ◌≤◌};
ghost use Rattle.closing.specs.Billing.{source_number};
ghost use Rattle.closing.specs.Closing.{Billed as Bill, Case, closed_hour};
ghost use Rattle.closing.specs.Lent.{figures_of, totals};
ghost use Rattle.closing.specs.Periods.{closed_of, count_by, Due, method_by, SharingAt, total_by, weights_by};
ghost use Rattle.vocabulary.specs.Methods.{method_number};

use crate::balance::Source;
use crate::figures::Figures;
use crate::rule::Rule;
use crate::share::Share;
use vocabulary::{KWh, Method, Wh};

// An hour of a curve.
#[derive(Clone, Copy)]
pub struct ClosedHour {
    pub energy: Wh,
    pub method: Method,
}

// The rule of a tariff period, what its hours share, and how its missing hours are come by.
#[derive(Clone, Copy)]
pub(crate) struct PeriodShare {
    pub rule: Rule,
    pub share: Share,
    pub missing: Method,
}

impl Rule {
    // What the hours of a tariff period share by its rule.
    fn to_share(self, figures: Figures, billed: u64) -> u64
        ensures { result ≡ total_by self (totals figures) billed }
    {
        match self {
            Rule::Keep => 0,
            Rule::Fill => billed.saturating_sub(figures.read),
            Rule::Rescale | Rule::CutDown => billed,
        }
    }

    // The weights of those that share.
    fn weights(self, figures: Figures) -> u64
        ensures { result ≡ weights_by self (totals figures) }
    {
        match self {
            Rule::Keep => 0,
            Rule::Fill => figures.weights,
            Rule::Rescale | Rule::CutDown => figures.read,
        }
    }

    // And how many they are.
    fn count(self, figures: Figures) -> u32
        ensures { result ≡ count_by self (totals figures) }
    {
        match self {
            Rule::Keep => 0,
            Rule::Fill => figures.missing,
            Rule::Rescale | Rule::CutDown => figures.hours - figures.missing,
        }
    }
}

impl Source {
    // How a missing hour's energy is come by, from the source of what is billed.
    fn missing_method(self) -> Method
        ensures { method_number result ≡ method_by (source_number self) }
    {
        match self {
            Source::Hours | Source::Remote | Source::Sight => Method::ProfiledFromBalance,
            Source::Own => Method::ProfiledFromOwnReading,
            Source::History => Method::ProfiledFromHistory,
            Source::Factor => Method::ProfiledFromFactor,
        }
    }
}

impl PeriodShare {
    // Before the first hour of a tariff period with these figures and this balance.
    pub(crate) fn begin(figures: Figures, kwh: KWh, source: Source) -> PeriodShare
        requires { kwh.0 ≤ 82500 }
        ensures { (c : Case) (b : Bill) (p : ℕ) → totals figures ≡ figures_of c p → source_number source ≡ b.source → kwh.0 ≡ b.kwh p → SharingAt c b p 0 result }
    {
        let rule = Rule::of(figures, kwh);
        PeriodShare {
            rule,
            share: Share::new(
                rule.to_share(figures, Wh::from(kwh).0),
                rule.weights(figures),
                rule.count(figures),
            ),
            missing: source.missing_method(),
        }
    }

    // Closes the next hour of the period, given what was read there and its weight: the energy of a read hour, and the
    // profile's weight of a missing one.
    pub(crate) fn give(&mut self, hour: Option<Wh>, weight: u64) -> ClosedHour
        requires { (c : Case) × ((b : Bill) × ((p : ℕ) × ((i : ℕ) × Due c b p i self.old hour weight))) }
        ensures { (c : Case) (b : Bill) (p i : ℕ) → Due c b p i self.old hour weight → (closed_of result ≡ closed_hour c b i) × SharingAt c b p (i + 1) self.new }
    {
        let (energy, method) = match hour {
            Some(_) if self.rule.changes() => {
                (Wh(self.share.next(weight)), Method::AdjustedToBalance)
            }
            Some(energy) => (energy, Method::Measured),
            None if self.rule.fills() => (Wh(self.share.next(weight)), self.missing),
            None => (Wh(0), self.missing),
        };
        ClosedHour { energy, method }
    }
}
