// The codes of supplies, participants and invoices. A code that is held is well formed: its type has
// no other value.
pub mod alphabet;
pub mod code;
pub mod invoice;
pub mod text;

pub use alphabet::Alphabet;
pub use code::{Code, ParticipantCode, SupplyCode};
pub use invoice::InvoiceCode;
pub use text::ascii_text;
