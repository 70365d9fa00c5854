// Lent lists of a limited length.
ghost use Rattle.std.specs.Prelude.{◌≡◌, ◌<◌, ◌≤◌, length, MatchResult, ⊤};
ghost use Rattle.vocabulary.specs.Refusals.{notice, plain};

use crate::refusal::Refusal;
use std::alloc::AllocError;

// Up to `MOST` items.
#[derive(Debug)]
pub struct AtMost<'a, T, const MOST: usize> {
    items: &'a [T],
    ghost few: { length items.now ≤ MOST },
}

impl<'a, T, const MOST: usize> AtMost<'a, T, MOST> {
    // These items; one too many is refused with 12.
    pub fn check(items: &'a [T]) -> Result<AtMost<'a, T, MOST>, Refusal>
        ensures { MatchResult result (λ l. (length items.now ≤ MOST) × (l.items.now ≡ items.now)) (λ e. (MOST < length items.now) × (notice e ≡ plain 12)) }
    {
        if items.len() > MOST {
            return Err(Refusal::NotListed);
        }
        Ok(AtMost { items })
    }

    pub fn as_slice(&self) -> &'a [T]
        ensures value { result.now ≡ self.now.items.now }
        ensures few { length result.now ≤ MOST }
    {
        self.items
    }
}

impl<T, const MOST: usize> Clone for AtMost<'_, T, MOST> {
    ghost is_clone = { λ l r. r ≡ l };

    ghost is_infallible = { λ _. ⊤ };

    fn clone(&self) -> Result<Self, AllocError> {
        Ok(*self)
    }
}

impl<T, const MOST: usize> Copy for AtMost<'_, T, MOST> {}
