// The hours of supplies, and their records.
use crate::billed::BilledHour;
use official_time::Hour;
use vocabulary::SupplyCode;

// An hour of a supply: what a record is about.
#[derive(Clone, Copy, PartialEq, Eq, PartialOrd, Ord, Debug)]
pub struct SupplyHour {
    pub supply: SupplyCode,
    pub hour: Hour,
}

// What a line of a file says: an hour of a supply, and what is billed there.
#[derive(Clone, Copy)]
pub struct HourRecord {
    pub at: SupplyHour,
    pub billed: BilledHour,
}
