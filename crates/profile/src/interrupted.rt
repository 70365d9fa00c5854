// Interruptions over any profile.
ghost use Rattle.std.specs.Prelude.{◌≡◌, ◌<◌, ◌≤◌, length};
ghost use Rattle.profile.specs.Profiles.{interrupted_weights};
ghost use Rattle.profile.specs.Rules.{inside};

use crate::profile::Profile;
use crate::span::Span;
use official_time::Hour;
use vocabulary::AtMost;

// Up to 64 spans; a 65th is refused.
pub type Spans<'a> = AtMost<'a, Span, 64>;

// Whether the hour lies in one of the spans.
fn is_inside(spans: &[Span], hour: Hour) -> bool
    ensures { result ≡ inside spans.now hour.number }
{
    spans.iter().any(|span| span.holds(hour))
}

// A profile with interruptions: inside a span the weight is 0 where the profile below has one, elsewhere
// it is the one below.
#[derive(Drop)]
pub struct Interrupted<'a, P> {
    below: P,
    spans: Spans<'a>,
}

impl<'a, P> Interrupted<'a, P> {
    pub fn new(below: P, spans: Spans<'a>) -> Interrupted<'a, P>
        ensures below { result.below ≡ below }
        ensures spans { result.spans ≡ spans.entry }
        ensures few { length result.spans.items.now ≤ 64 }
    {
        Interrupted { below, spans }
    }
}

impl<P: Profile> Profile for Interrupted<'_, P> {
    ghost weights = { λ p. interrupted_weights p.spans.items.now (P.Profile.weights p.below) };

    fn weight(&self, hour: Hour) -> Option<u32> {
        let weight = self.below.weight(hour)?;
        let inside = is_inside(self.spans.as_slice(), hour);
        Some(if inside { 0 } else { weight })
    }
}
