// An invoice's code.
ghost use Rattle.std.specs.Prelude.{◌≡◌, ◌-◌, ◌≤◌, true, false, ◌++◌, length, take, replicate, Some, MatchResult};
ghost use Rattle.vocabulary.specs.Codes.{is_invoice};
ghost use Rattle.vocabulary.specs.Refusals.{notice, plain};

use super::alphabet::Alphabet;
use super::text::ascii_text;
use crate::refusal::Refusal;
use std::fmt;

// 1 to 26 visible ASCII characters other than `;`. The bytes behind them are zero, so that each code
// is held in one way only; a text of the library with a length beside leaves open what stands there.
#[derive(Clone, Copy, PartialEq, Eq, Debug)]
pub struct InvoiceCode {
    bytes: [u8; 26],
    len: usize,
    ghost within: { len ≤ length bytes },
    ghost formed: { is_invoice (take len bytes) ≡ true },
    ghost padded: { bytes ≡ take len bytes ++ replicate (26 - len) 0 },
}

impl InvoiceCode {
    pub fn as_bytes(&self) -> &[u8]
        ensures value { result.now ≡ take self.now.len self.now.bytes }
        ensures formed { is_invoice result.now ≡ true }
    {
        &self.bytes[..self.len]
    }
}

impl TryFrom<&[u8]> for InvoiceCode {
    type Error = Refusal;

    ghost use Rattle.std.specs.Prelude.{◌≡◌, true, false, take, MatchResult};
    ghost use Rattle.vocabulary.specs.Codes.{is_invoice};
    ghost use Rattle.vocabulary.specs.Refusals.{notice, plain};
    ghost use Rattle.vocabulary.specs.declared.codes.invoice.InvoiceCode.{InvoiceCode};

    ghost try_from_gives = { λ text r. MatchResult r (λ c. (take c.len c.bytes ≡ text.now) × (is_invoice text.now ≡ true) × ((d : InvoiceCode) → take d.len d.bytes ≡ text.now → d ≡ c)) (λ e. (notice e ≡ plain 10) × (is_invoice text.now ≡ false)) };

    fn try_from(text: &[u8]) -> Result<Self, Refusal> {
        match text.len() {
            1..=26 if Alphabet::Visible.has_all(text) => Ok(held(text)),
            _ => Err(Refusal::MalformedCode),
        }
    }
}

impl fmt::Display for InvoiceCode {
    ghost output = { λ c. Some (take c.len c.bytes) };

    fn fmt<W: fmt::Write>(&self, f: &mut fmt::Formatter<W>) -> fmt::Result {
        f.write_str(ascii_text(self.as_bytes()))
    }
}

// The one way to hold the text.
fn held(text: &[u8]) -> InvoiceCode
    requires { is_invoice text.now ≡ true }
    ensures value { take result.len result.bytes ≡ text.now }
    ensures alone { (d : InvoiceCode) → take d.len d.bytes ≡ text.now → d ≡ result }
{
    let bytes = padded(text);
    let len = text.len();
    InvoiceCode { bytes, len }
}

// The text with zeros behind it.
fn padded(text: &[u8]) -> [u8; 26]
    requires { length text.now ≤ 26 }
    ensures { result ≡ text.now ++ replicate (26 - length text.now) 0 }
{
    let mut bytes = [0; 26];
    bytes[..text.len()].copy_from_slice(text);
    bytes
}
