// A fixed table of marks, which tells of most supplies that they were not seen.
ghost use Rattle.std.specs.Prelude.{◌≡◌, ℕ, ◌<◌, true, false, List};
ghost use Rattle.f5d.specs.Marking.{marked, mixed, place, places};
ghost use Rattle.std.specs.List.{All};

use vocabulary::SupplyCode;

const SIZE: usize = 65_536;

// Each supply that was seen left four marks. Where all of them are there it may have been seen; where one is not,
// it was not.
#[derive(Clone, Copy)]
pub(crate) struct Marks {
    seen: [bool; SIZE],
}

// A number mixed from the bytes of a code.
fn mix(code: &[u8]) -> u64
    ensures { result ≡ mixed 0 code.now }
{
    let mut number: u64 = 0;
    for byte in code {
        number = number
            .wrapping_mul(16_777_619)
            .wrapping_add(u64::from(*byte));
    }
    number
}

// The place in the table by one of the four 16-bit parts of a number.
fn place_of(number: u64, part: u64) -> usize
    requires { 0 < part }
    ensures value { result ≡ place number part }
    ensures bound { result < 65536 }
{
    (number / part % 65_536) as usize
}

// The places of a code's marks.
fn places_of(code: &SupplyCode) -> [usize; 4]
    ensures value { result ≡ places (mixed 0 code.now.bytes) }
    ensures bound { All (λ p. p < 65536) result }
{
    let number = mix(code.as_bytes());
    [
        place_of(number, 1),
        place_of(number, 65_536),
        place_of(number, 4_294_967_296),
        place_of(number, 281_474_976_710_656),
    ]
}

impl Marks {
    pub(crate) fn new() -> Marks {
        Marks {
            seen: [false; SIZE],
        }
    }

    // Whether the code may have been seen.
    pub(crate) fn has(&self, code: &SupplyCode) -> bool
        ensures { result ≡ marked self.now.seen code.now.bytes }
    {
        let [a, b, c, d] = places_of(code);
        self.seen[a] && self.seen[b] && self.seen[c] && self.seen[d]
    }

    // Leaves the marks of a code. All others stay.
    pub(crate) fn note(&mut self, code: &SupplyCode)
        ensures noted { marked self.new.seen code.now.bytes ≡ true }
        ensures kept { (other : List ℕ) → marked self.old.seen other ≡ true → marked self.new.seen other ≡ true }
    {
        let [a, b, c, d] = places_of(code);
        self.seen[a] = true;
        self.seen[b] = true;
        self.seen[c] = true;
        self.seen[d] = true;
    }
}
