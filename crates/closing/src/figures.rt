// What the hours of a billing period come to.
ghost use Rattle.std.specs.Prelude.{◌*◌, ◌≤◌};

use vocabulary::Wh;

// Of a tariff period: its hours, the missing ones, the Wh of the read ones, and of the missing ones the weights and how
// many have none.
#[derive(Clone, Copy)]
pub(crate) struct Figures {
    pub hours: u32,
    pub missing: u32,
    pub read: u64,
    pub weights: u64,
    pub weightless: u32,
    ghost few: { hours ≤ 1500 },
    ghost part: { missing ≤ hours },
    ghost small: { read ≤ 55000 * hours },
    ghost light: { weights ≤ 1000000 * missing },
    ghost lacking: { weightless ≤ missing },
}

// Of a billing period: how many tariff periods its calendar has, whether an hour is missing, and the figures of each
// tariff period, from period 1 on.
#[derive(Clone, Copy)]
pub(crate) struct BillingFigures {
    pub periods: usize,
    pub any_missing: bool,
    pub by_period: [Figures; 3],
    ghost three: { periods ≤ 3 },
}

impl Figures {
    ghost use Rattle.std.specs.Prelude.{◌≡◌, ◌<◌};
    ghost use Rattle.closing.specs.Lent.{no_hours, totals, with_missing, with_read};
    ghost use Rattle.profile.specs.Weights.{Light};

    // Of no hours.
    pub(crate) fn new() -> Figures
        ensures { totals result ≡ no_hours }
    {
        Figures {
            hours: 0,
            missing: 0,
            read: 0,
            weights: 0,
            weightless: 0,
        }
    }

    // With one more hour, which was read.
    pub(crate) fn with_read(self, energy: Wh) -> Figures
        requires few { self.hours < 1500 }
        requires small { energy.0 ≤ 55000 }
        ensures { totals result ≡ with_read (totals self) energy.0 }
    {
        Figures {
            hours: self.hours + 1,
            missing: self.missing,
            read: self.read + energy.0,
            weights: self.weights,
            weightless: self.weightless,
        }
    }

    // With one more hour, which is missing.
    pub(crate) fn with_missing(self, weight: Option<u32>) -> Figures
        requires few { self.hours < 1500 }
        requires light { Light weight }
        ensures { totals result ≡ with_missing (totals self) weight }
    {
        Figures {
            hours: self.hours + 1,
            missing: self.missing + 1,
            read: self.read,
            weights: self.weights + u64::from(weight.unwrap_or(0)),
            weightless: self.weightless + u32::from(weight.is_none()),
        }
    }
}
