// Energies. Hours are measured in Wh and balances in kWh; the two are types of their own, so that a
// sum of one with the other does not compile.
ghost use Rattle.std.specs.Prelude.{◌≡◌, ◌+◌, ◌*◌, ◌^◌, ◌≤◌, MatchOption, nat_le};

// The energy of an hour, or a sum of such energies.
#[derive(Clone, Copy, PartialEq, Eq, PartialOrd, Ord, Debug)]
pub struct Wh(pub u64);

// A register value, a balance or an estimate.
#[derive(Clone, Copy, PartialEq, Eq, PartialOrd, Ord, Debug)]
pub struct KWh(pub u32);

impl Wh {
    // Whether the record of an hour can bear this energy: it has ten digits at most.
    pub fn fits_record(self) -> bool
        ensures { result ≡ nat_le self.0 9999999999 }
    {
        self.0 <= 9_999_999_999
    }

    // The sum, unless it passes the type.
    pub fn checked_add(self, other: Self) -> Option<Self>
        ensures { MatchOption result (2 ^ 64 ≤ self.0 + other.0) (λ sum. sum.0 ≡ self.0 + other.0) }
    {
        Some(Wh(self.0.checked_add(other.0)?))
    }
}

impl KWh {
    // The sum, unless it passes the type.
    pub fn checked_add(self, other: Self) -> Option<Self>
        ensures { MatchOption result (2 ^ 32 ≤ self.0 + other.0) (λ sum. sum.0 ≡ self.0 + other.0) }
    {
        Some(KWh(self.0.checked_add(other.0)?))
    }
}

// A balance in Wh: the one bridge between the two units.
impl From<KWh> for Wh {
    ghost from_gives = { λ balance energy. energy.0 ≡ 1000 * balance.0 };

    fn from(balance: KWh) -> Wh {
        Wh(1000 * u64::from(balance.0))
    }
}
