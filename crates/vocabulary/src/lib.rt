// The words that every other crate speaks: energies in Wh and in kWh, the codes of supplies, invoices
// and participants and the alphabets they are of, how an hour came to be and how firm it is, slices of no more
// than a set length, and the refusals with which a call turns away what it is handed.
//
// Nothing here knows hours, books or files. A crate that only needs a number of its own should not
// look for it here.
#![tactic(auto)]

pub mod at_most;
pub mod codes;
pub mod energy;
pub mod method;
pub mod refusal;

pub use at_most::AtMost;
pub use codes::{Alphabet, Code, InvoiceCode, ParticipantCode, SupplyCode, ascii_text};
pub use energy::{KWh, Wh};
pub use method::{Firmness, Method};
pub use refusal::{Field, Notice, Refusal};

#[cfg(test)]
mod tests;
