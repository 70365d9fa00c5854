// What a key is.
ghost use Rattle.std.specs.Prelude.{◌≡◌};
ghost use Rattle.std.specs.Ordering.{MatchOrdering};
ghost use Rattle.sorted_table.specs.Orders.{TotalOrder};

use std::cmp::Ordering;

// A type whose values stand in a total order. Where it is the one that the type derives, `compare` is its `cmp`.
pub trait Key: Copy {
    ghost before: { Self → Self → Type 0 };

    ghost order: { TotalOrder before };

    fn compare(&self, other: &Self) -> Ordering
        ensures { MatchOrdering result (before self.now other.now) (self.now ≡ other.now) (before other.now self.now) };
}
