// What a file tells of an hour.
ghost use Rattle.std.specs.Prelude.{◌≡◌, ◌<◌, ◌≤◌, MatchOption};

use vocabulary::{Firmness, InvoiceCode, Method, Wh};

// The energy of an hour, how it was come by, whether it is firm, and the invoice. The energy has ten digits at
// most, so that every such hour has a line.
#[derive(Clone, Copy)]
pub struct BilledHour {
    energy: Wh,
    method: Method,
    firmness: Firmness,
    invoice: InvoiceCode,
    ghost fits: { energy.0 ≤ 9999999999 },
}

impl BilledHour {
    // None where the energy has more than ten digits.
    pub fn new(energy: Wh, method: Method, firmness: Firmness, invoice: InvoiceCode) -> Option<Self>
        ensures { MatchOption result (9999999999 < energy.0) (λ b. (b.energy ≡ energy) × (b.method ≡ method) × (b.firmness ≡ firmness) × (b.invoice ≡ invoice)) }
    {
        if energy.fits_record() {
            Some(BilledHour::of(energy, method, firmness, invoice))
        } else {
            None
        }
    }

    // An energy that is known to have ten digits at most.
    pub(crate) fn of(energy: Wh, method: Method, firmness: Firmness, invoice: InvoiceCode) -> Self
        requires { energy.0 ≤ 9999999999 }
        ensures { (result.energy ≡ energy) × (result.method ≡ method) × (result.firmness ≡ firmness) × (result.invoice ≡ invoice) }
    {
        BilledHour {
            energy,
            method,
            firmness,
            invoice,
        }
    }

    pub fn energy(&self) -> Wh
        ensures value { result ≡ self.now.energy }
        ensures fits { result.0 ≤ 9999999999 }
    {
        self.energy
    }

    pub fn method(&self) -> Method
        ensures { result ≡ self.now.method }
    {
        self.method
    }

    pub fn firmness(&self) -> Firmness
        ensures { result ≡ self.now.firmness }
    {
        self.firmness
    }

    pub fn invoice(&self) -> &InvoiceCode
        ensures { result.now ≡ self.now.invoice }
    {
        &self.invoice
    }
}
