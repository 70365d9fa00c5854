// Profiles: how the energy of missing hours is shared.
//
// `Profile` is what a close asks; a table that was published, last year's readings and an even profile
// answer it, and `Interrupted` stands over any of them.
#![tactic(auto)]

mod even;
mod interrupted;
mod last_year;
mod profile;
mod published;
mod span;

pub use even::Even;
pub use interrupted::{Interrupted, Spans};
pub use last_year::{History, LastYear};
pub use profile::Profile;
pub use published::Published;
pub use span::Span;

#[cfg(test)]
mod tests;
