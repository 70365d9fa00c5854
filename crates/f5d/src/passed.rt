// What is kept of the records that were passed, to tell whether the next one is in its turn.
use crate::hours::SupplyHour;
use crate::marks::Marks;
use vocabulary::SupplyCode;

// The last record's hour of a supply, the highest code that was passed, and the marks of all.
#[derive(Clone, Copy)]
pub(crate) struct Turns {
    pub last: SupplyHour,
    pub highest: SupplyCode,
    pub marks: Marks,
}
