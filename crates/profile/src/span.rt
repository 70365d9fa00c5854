// Spans of hours.
ghost use Rattle.std.specs.Prelude.{◌≡◌, ◌<◌, ◌≤◌, MatchResult};
ghost use Rattle.vocabulary.specs.Ranges.{between};
ghost use Rattle.vocabulary.specs.Refusals.{notice, plain};

use official_time::Hour;
use vocabulary::Refusal;

// The hours from a first to a last one, both included.
#[derive(Clone, Copy)]
pub struct Span {
    first: u32,
    last: u32,
    ghost forward: { first ≤ last },
}

impl Span {
    // Refused with 12 where the last hour is before the first.
    pub fn check(first: u32, last: u32) -> Result<Span, Refusal>
        ensures { MatchResult result (λ s. (s.first ≡ first) × (s.last ≡ last)) (λ e. (last < first) × (notice e ≡ plain 12)) }
    {
        if last < first {
            return Err(Refusal::NotListed);
        }
        Ok(Span { first, last })
    }

    // Whether the hour lies in the span.
    pub fn holds(&self, hour: Hour) -> bool
        ensures { result ≡ between self.now.first self.now.last hour.number }
    {
        (self.first..=self.last).contains(&hour.number())
    }
}
