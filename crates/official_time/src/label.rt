// Labels: how an hour is written.
ghost use Rattle.std.specs.Prelude.{◌≡◌, ℕ, is_ok, IfOk, MatchOption, MatchResult};
ghost use Rattle.official_time.specs.Hours.{flag as flag_of, is_label, IsLabel, meant as one_meant};
ghost use Rattle.vocabulary.specs.Refusals.{notice, plain};

use crate::date::Date;
use crate::hour::Hour;
use vocabulary::Refusal;

// The date and clock of an hour's end with its summer flag, as they are written; whether an hour has
// this label, `hour` says.
#[derive(Clone, Copy, PartialEq, Eq, Debug)]
pub struct Label {
    pub date: Date,
    pub hour: u32,
    pub minute: u32,
    pub second: u32,
    pub flag: u32,
}

impl Label {
    // The one hour that the label can mean, if any; its flag may still be another.
    fn meant(self) -> Option<Hour>
        ensures { MatchOption result ((h : ℕ) → IsLabel h self → ⊥) (λ k. ((h : ℕ) → IsLabel h self → h ≡ k.number) × (flag_of k.number ≡ self.flag → IsLabel k.number self)) }
    {
        let day = self.date.day().ok()?;
        if self.hour > 23 || self.minute != 0 || self.second != 0 {
            return None;
        }
        let clock = 24 * day.number() + self.hour;
        Hour::new(clock.checked_sub(self.flag)?)
    }

    // The hour that has this label, the only one; refused with 1 where there is none.
    pub fn hour(self) -> Result<Hour, Refusal>
        ensures test { is_ok result ≡ is_label self }
        ensures value { IfOk result (λ h. h.number ≡ one_meant self) }
        ensures cases { MatchResult result (λ h. IsLabel h.number self) (λ e. (notice e ≡ plain 1) × ((h : ℕ) → IsLabel h self → ⊥)) }
        ensures only { IfOk result (λ h. (k : ℕ) → IsLabel k self → k ≡ h.number) }
    {
        match self.meant() {
            Some(hour) if hour.season().flag() == self.flag => Ok(hour),
            _ => Err(Refusal::NoSuchLabel),
        }
    }
}
