// The profile that was published as a table.
ghost use Rattle.std.specs.Prelude.{◌≡◌, true, false, ◌&&◌, MatchResult};
ghost use Rattle.official_time.specs.Hours.{is_hour};
ghost use Rattle.profile.specs.Profiles.{published_weights};
ghost use Rattle.profile.specs.Rules.{all_light, TableLaw};
ghost use Rattle.vocabulary.specs.Refusals.{notice, plain};

use crate::profile::{MOST, Profile};
use official_time::Hour;
use vocabulary::Refusal;

// The weights of a table from its first hour on, and none outside it. A number above 1,000,000 is no
// weight; `check` refuses a table that has one.
#[derive(Clone, Copy)]
pub struct Published<'a> {
    first: Hour,
    weights: &'a [u32],
}

impl<'a> Published<'a> {
    // The first hour of a table of weights; refused with 12 where it is none, or a weight is above 1,000,000.
    pub fn check(first: u32, weights: &[u32]) -> Result<Hour, Refusal>
        ensures { MatchResult result (λ h. (h.number ≡ first) × (all_light weights.now ≡ true)) (λ e. (notice e ≡ plain 12) × ((is_hour first && all_light weights.now) ≡ false)) }
    {
        match Hour::new(first) {
            Some(hour) if all_light(weights) => Ok(hour),
            _ => Err(Refusal::NotListed),
        }
    }

    // The profile of the weights from a first hour on.
    pub fn new(first: Hour, weights: &'a [u32]) -> Published<'a>
        ensures first { result.first ≡ first }
        ensures weights { result.weights.now ≡ weights.now }
        ensures law { TableLaw }
    {
        Published { first, weights }
    }
}

fn all_light(weights: &[u32]) -> bool
    ensures { result ≡ all_light weights.now }
{
    weights.iter().all(|weight| *weight <= MOST)
}

impl Profile for Published<'_> {
    ghost weights = { λ p. published_weights p.first.number p.weights.now };

    fn weight(&self, hour: Hour) -> Option<u32> {
        let place = hour.number().checked_sub(self.first.number())?;
        let weight = *self.weights.get(place as usize)?;
        (weight <= MOST).then_some(weight)
    }
}
