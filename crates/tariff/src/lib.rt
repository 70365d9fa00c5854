// Tariff calendars: which tariff period an hour is billed in.
//
// `Calendar` is what the rest of the program asks; the calendars of the tariffs 2.0A, 2.0DHA and
// 2.0TD answer it. Another calendar is another `impl`, and nothing that asks has to know it.
#![tactic(auto)]

mod calendar;
mod rates;

pub use calendar::Calendar;
pub use rates::{Calendar20A, Calendar20Dha, Calendar20Td, Holidays};
