// How the energy of an hour was come by, and whether it may still change.
ghost use Rattle.std.specs.Prelude.{◌≡◌, true, false, MatchResult, nat_le};
ghost use Rattle.vocabulary.specs.Methods.{firmness_number, method_number};
ghost use Rattle.vocabulary.specs.Ranges.{between};
ghost use Rattle.vocabulary.specs.Refusals.{notice, plain};

use crate::refusal::Refusal;

// What stands behind the energy of an hour. A field engineer looks for anything but `Measured`.
#[derive(Clone, Copy, PartialEq, Eq, Debug)]
pub enum Method {
    // 1: a valid reading of the hour
    Measured,
    // 2: missing, and shared out by profile from a remote or sight balance
    ProfiledFromBalance,
    // 3: read, and adjusted to a remote or sight balance
    AdjustedToBalance,
    // 4: missing, and shared out from the customer's own reading
    ProfiledFromOwnReading,
    // 5: missing, and shared out from an estimate by last year's consumption
    ProfiledFromHistory,
    // 6: missing, and shared out from an estimate by a utilisation factor
    ProfiledFromFactor,
}

impl Method {
    pub fn number(self) -> u8
        ensures value { result ≡ method_number self }
        ensures range { between 1 6 result ≡ true }
    {
        match self {
            Method::Measured => 1,
            Method::ProfiledFromBalance => 2,
            Method::AdjustedToBalance => 3,
            Method::ProfiledFromOwnReading => 4,
            Method::ProfiledFromHistory => 5,
            Method::ProfiledFromFactor => 6,
        }
    }
}

// The method of a number; refused with 12 outside 1 to 6.
impl TryFrom<u8> for Method {
    type Error = Refusal;

    ghost try_from_gives = { λ number r. MatchResult r (λ m. (between 1 6 number ≡ true) × (method_number m ≡ number)) (λ e. (notice e ≡ plain 12) × (between 1 6 number ≡ false)) };

    fn try_from(number: u8) -> Result<Method, Refusal> {
        match number {
            1 => Ok(Method::Measured),
            2 => Ok(Method::ProfiledFromBalance),
            3 => Ok(Method::AdjustedToBalance),
            4 => Ok(Method::ProfiledFromOwnReading),
            5 => Ok(Method::ProfiledFromHistory),
            6 => Ok(Method::ProfiledFromFactor),
            _ => Err(Refusal::NotListed),
        }
    }
}

#[derive(Clone, Copy, PartialEq, Eq, Debug)]
pub enum Firmness {
    // 0: may still change
    Provisional,
    // 1
    Firm,
}

impl Firmness {
    pub fn number(self) -> u8
        ensures value { result ≡ firmness_number self }
        ensures range { nat_le result 1 ≡ true }
    {
        match self {
            Firmness::Provisional => 0,
            Firmness::Firm => 1,
        }
    }
}

// The firmness of a number; refused with 12 from 2 on.
impl TryFrom<u8> for Firmness {
    type Error = Refusal;

    ghost try_from_gives = { λ number r. MatchResult r (λ f. (nat_le number 1 ≡ true) × (firmness_number f ≡ number)) (λ e. (notice e ≡ plain 12) × (nat_le number 1 ≡ false)) };

    fn try_from(number: u8) -> Result<Firmness, Refusal> {
        match number {
            0 => Ok(Firmness::Provisional),
            1 => Ok(Firmness::Firm),
            _ => Err(Refusal::NotListed),
        }
    }
}
