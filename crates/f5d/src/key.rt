// Hours of supplies as keys of a table.
ghost use Rattle.f5d.specs.SupplyHours.{Before, supply_hour_order};

use crate::hours::SupplyHour;
use sorted_table::Key;
use std::cmp::Ordering;

// By supply code, byte by byte, and then by hour.
impl Key for SupplyHour {
    ghost before = { Before };

    ghost order = { supply_hour_order };

    #[tactic(auto, using(crate::specs::SupplyHours::supply_hour_agrees))]
    fn compare(&self, other: &SupplyHour) -> Ordering {
        self.cmp(other)
    }
}
