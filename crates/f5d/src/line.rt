// What is read of a line.
use crate::hours::HourRecord;

// What some bytes begin with, and how many of them it takes.
#[derive(Clone, Copy)]
pub struct Taken<T> {
    pub value: T,
    pub length: usize,
}

// A record, and the length of its line.
pub type Line = Taken<HourRecord>;
