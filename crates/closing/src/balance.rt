// Balances, and which of them is billed.
ghost use Rattle.std.specs.Prelude.{◌≡◌, ◌+◌, ◌/◌};
ghost use Rattle.std.specs.Option.{option_map};
ghost use Rattle.closing.specs.Billing.{balances_of, ComesTo, SameBill};
ghost use Rattle.closing.specs.Closing.{billed as billed_by_rules, Case};

use crate::figures::{BillingFigures, Figures};
use vocabulary::KWh;

// The kWh of each tariff period, from period 1 on; there are up to 3.
#[derive(Clone, Copy)]
pub struct Balance {
    pub periods: usize,
    pub kwh: [KWh; 3],
}

// Where a balance comes from: the hours themselves, the meter read remotely or on sight, the customer's own reading,
// last year's consumption, or a utilisation factor.
#[derive(Clone, Copy)]
pub enum Source {
    Hours,
    Remote,
    Sight,
    Own,
    History,
    Factor,
}

// The balance that is billed, and its source.
#[derive(Clone, Copy)]
pub(crate) struct Billed {
    pub source: Source,
    pub balance: Balance,
}

impl Source {
    // What is billed by a balance of this source, if there is one.
    fn bill(self, balance: Option<Balance>) -> Option<Billed>
        ensures { result ≡ option_map (λ b. record { source = self; balance = b }) balance }
    {
        balance.map(|balance| Billed {
            source: self,
            balance,
        })
    }
}

// What the read hours of a tariff period come to, half a kWh being rounded up.
fn computed(figures: Figures) -> KWh
    ensures { result.0 ≡ (figures.read + 500) / 1000 }
{
    KWh(((figures.read + 500) / 1000) as u32)
}

impl BillingFigures {
    // The balance that is billed: the remote one; if there is none and no hour is missing, the one that the hours come
    // to; else the first of sight, own reading, history and factor.
    pub(crate) fn choose_bill(&self, balances: [Option<Balance>; 5]) -> Option<Billed>
        ensures { (c : Case) → ComesTo c self.now → SameBill (billed_by_rules c (balances_of balances)) result }
    {
        let [remote, sight, own, history, factor] = balances;
        let hours = (!self.any_missing).then_some(Balance {
            periods: self.periods,
            kwh: self.by_period.map(computed),
        });
        Source::Remote
            .bill(remote)
            .or(Source::Hours.bill(hours))
            .or(Source::Sight.bill(sight))
            .or(Source::Own.bill(own))
            .or(Source::History.bill(history))
            .or(Source::Factor.bill(factor))
    }
}
