// The profile that is last year's readings.
ghost use Rattle.std.specs.Prelude.{◌≡◌, min, true, false, MatchResult};
ghost use Rattle.profile.specs.Profiles.{last_year_weights};
ghost use Rattle.profile.specs.Rules.{after, energy_at};
ghost use Rattle.std.specs.Option.{option_map};
ghost use Rattle.vocabulary.specs.Refusals.{notice, plain};

use crate::profile::{MOST, Profile};
use official_time::Hour;
use sorted_table::{Place, find_in};
use vocabulary::{Refusal, Wh};

// 52 weeks, so that the weekday is the same.
const YEAR: u32 = 8736;

// The energies of past hours, in the order of the hours.
#[derive(Clone, Copy)]
pub struct History<'a> {
    places: &'a [Place<Hour, Wh>],
    ghost rising: { after 0 places.now ≡ true },
}

impl<'a> History<'a> {
    // These entries of a table; refused with 12 where the hours do not rise.
    pub fn check(places: &'a [Place<Hour, Wh>]) -> Result<History<'a>, Refusal>
        ensures { MatchResult result (λ h. (after 0 places.now ≡ true) × (h.places.now ≡ places.now)) (λ e. (after 0 places.now ≡ false) × (notice e ≡ plain 12)) }
    {
        if !rises(places) {
            return Err(Refusal::NotListed);
        }
        Ok(History { places })
    }

    // The energy of an hour, if the history has it.
    fn energy(&self, hour: Hour) -> Option<Wh>
        ensures { option_map (λ wh. wh.0) result ≡ energy_at self.now.places.now hour.number }
    {
        find_in(self.places, &hour).copied()
    }
}

fn rises(places: &[Place<Hour, Wh>]) -> bool
    ensures { result ≡ after 0 places.now }
{
    let mut last = 0;
    for place in places {
        let number = place.key.number();
        if number <= last {
            return false;
        }
        last = number;
    }
    true
}

fn capped(energy: Wh) -> u32
    ensures { result ≡ min energy.0 1000000 }
{
    energy.0.min(u64::from(MOST)) as u32
}

// The energy of the hour 52 weeks before, at most 1,000,000, and none where the history lacks it.
#[derive(Clone, Copy)]
pub struct LastYear<'a> {
    history: History<'a>,
}

impl<'a> LastYear<'a> {
    pub fn new(history: History<'a>) -> LastYear<'a>
        ensures { result.history ≡ history.entry }
    {
        LastYear { history }
    }
}

impl Profile for LastYear<'_> {
    ghost weights = { λ p. last_year_weights p.history.places.now };

    fn weight(&self, hour: Hour) -> Option<u32> {
        let earlier = Hour::new(hour.number().checked_sub(YEAR)?)?;
        Some(capped(self.history.energy(earlier)?))
    }
}
