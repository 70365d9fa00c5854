// Official time from 2000 to 2099: dates, hours and their labels.
//
// An hour is a number, and what people write of it is a label: the date and clock of its end, with
// a flag for summer. `Hour::label` and `Label::hour` go from one to the other.
#![tactic(auto)]

mod changes;
mod date;
mod hour;
mod key;
mod label;
mod season;
mod text;

pub use date::{Date, Day, Weekday};
pub use hour::{DayHours, Hour};
pub use label::Label;
pub use season::Season;
