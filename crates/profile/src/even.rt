// The even profile.
ghost use Rattle.profile.specs.Profiles.{even_weights};

use crate::profile::Profile;
use official_time::Hour;

// The weight 1 for each hour.
#[derive(Clone, Copy)]
pub struct Even;

impl Profile for Even {
    ghost weights = { λ _. even_weights };

    fn weight(&self, _hour: Hour) -> Option<u32> {
        Some(1)
    }
}
