// Codes of a fixed length.
ghost use Rattle.std.specs.Prelude.{◌≡◌, Some, true, false, MatchResult};
ghost use Rattle.vocabulary.specs.Codes.{is_code};
ghost use Rattle.vocabulary.specs.Refusals.{notice, plain};

use super::alphabet::Alphabet;
use super::text::ascii_text;
use crate::refusal::Refusal;
use std::fmt;

// `N` digits or capital letters.
#[derive(Clone, Copy, PartialEq, Eq, PartialOrd, Ord, Debug)]
pub struct Code<const N: usize> {
    bytes: [u8; N],
    ghost formed: { is_code N bytes ≡ true },
}

// A supply's code.
pub type SupplyCode = Code<22>;

// The code of a participant, a distributor or a retailer.
pub type ParticipantCode = Code<4>;

impl<const N: usize> Code<N> {
    pub fn as_bytes(&self) -> &[u8]
        ensures value { result.now ≡ self.now.bytes }
        ensures formed { is_code N result.now ≡ true }
    {
        &self.bytes
    }
}

impl<const N: usize> TryFrom<&[u8]> for Code<N> {
    type Error = Refusal;

    ghost try_from_gives = { λ text r. MatchResult r (λ c. (c.bytes ≡ text.now) × (is_code N text.now ≡ true)) (λ e. (notice e ≡ plain 10) × (is_code N text.now ≡ false)) };

    fn try_from(text: &[u8]) -> Result<Self, Refusal> {
        match <[u8; N]>::try_from(text) {
            Ok(bytes) if Alphabet::Code.has_all(text) => Ok(Code { bytes }),
            _ => Err(Refusal::MalformedCode),
        }
    }
}

impl<const N: usize> fmt::Display for Code<N> {
    ghost output = { λ c. Some c.bytes };

    fn fmt<W: fmt::Write>(&self, f: &mut fmt::Formatter<W>) -> fmt::Result {
        f.write_str(ascii_text(self.as_bytes()))
    }
}
