// What a profile is.
ghost use Rattle.std.specs.Prelude.{◌≡◌};
ghost use Rattle.profile.specs.Weights.{Weights};

use official_time::Hour;

// The largest weight.
pub const MOST: u32 = 1_000_000;

// For every hour a weight from 0 to 1,000,000, or none. Asking changes nothing.
pub trait Profile {
    ghost weights: { Self → Weights };

    fn weight(&self, hour: Hour) -> Option<u32>
        ensures { result ≡ (weights self.now).weight hour.number };
}
