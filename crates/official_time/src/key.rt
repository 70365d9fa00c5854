// Hours as keys of a table.
ghost use Rattle.official_time.specs.HourKeys.{Earlier, hour_order};

use crate::hour::Hour;
use sorted_table::Key;
use std::cmp::Ordering;

impl Key for Hour {
    ghost before = { Earlier };

    ghost order = { hour_order };

    #[tactic(auto, using(crate::specs::HourKeys::hour_agrees))]
    fn compare(&self, other: &Hour) -> Ordering {
        self.cmp(other)
    }
}
