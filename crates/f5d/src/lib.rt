// The records of hours, and the F5D files that carry them.
//
// A record's line is written into a lent buffer (`HourRecord::write_line`) and read from lent bytes
// (`HourRecord::read_line`). A whole file is checked by `check_file`, and its records are then handed out by
// `Records`; neither allocates. `FileName` is the name of such a file. Whoever wants to keep the records in order
// takes them into a sorted table under `SupplyHour`.
#![tactic(auto)]

mod billed;
mod bytes;
mod file;
mod file_name;
mod hours;
mod key;
mod line;
mod marks;
mod name;
mod passed;
mod pen;
mod read;
mod records;
mod write;

pub use billed::BilledHour;
pub use file::check_file;
pub use file_name::FileName;
pub use hours::{HourRecord, SupplyHour};
pub use line::{Line, Taken};
pub use name::Word;
pub use records::Records;
pub use vocabulary::{Firmness, Method};
