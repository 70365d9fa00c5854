// What stands at a place in bytes, and how many of the first are of an alphabet.
ghost use Rattle.std.specs.Prelude.{◌≡◌, ◌+◌, ◌-◌, ◌*◌, ◌%◌, ◌^◌, ◌<◌, ◌≤◌, true, false, not, ◌&&◌, length, ◌==◌, slice_index};
ghost use Rattle.vocabulary.specs.Alphabets.{has};
ghost use Rattle.std.specs.List.{position};
ghost use Rattle.f5d.specs.Reading.{ends_at, leading as leading_of, number as number_of, pair, pair_number};
ghost use Rattle.vocabulary.specs.Codes.{digit};
ghost use Rattle.std.specs.List.{list_all};

use vocabulary::Alphabet;

// How many bytes of an alphabet come first, at most `most`.
pub(crate) fn leading(alphabet: Alphabet, most: usize, bytes: &[u8]) -> usize
    ensures value { result ≡ leading_of (has alphabet) most bytes.now }
    ensures bound { (result ≤ most) × (result ≤ length bytes.now) }
{
    let front = &bytes[..most.min(bytes.len())];
    first_other(alphabet, front).unwrap_or(front.len())
}

// The place of the first byte that the alphabet lacks.
fn first_other(alphabet: Alphabet, bytes: &[u8]) -> Option<usize>
    ensures { result ≡ position (λ b. not (has alphabet b)) bytes.now }
{
    bytes.iter().position(|byte| !alphabet.has(*byte))
}

// Whether a byte stands at a place; behind the last byte there is none.
pub(crate) fn has_at(bytes: &[u8], place: usize, byte: u8) -> bool
    requires { 0 < byte }
    ensures value { result ≡ (slice_index bytes.now place == byte) }
    ensures within { result ≡ true → place < length bytes.now }
{
    bytes.get(place) == Some(&byte)
}

// Whether `;` stands at a place.
pub(crate) fn ends_at(bytes: &[u8], place: usize) -> bool
    ensures value { result ≡ ends_at bytes.now place }
    ensures within { result ≡ true → place < length bytes.now }
{
    has_at(bytes, place, b';')
}

// The number that at most ten digits write.
pub(crate) fn number(digits: &[u8]) -> u64
    requires { (length digits.now ≤ 10) × (list_all digit digits.now ≡ true) }
    ensures value { result ≡ number_of 0 digits.now }
    ensures bound { result < 10 ^ length digits.now }
{
    let mut number: u64 = 0;
    for digit in digits {
        number = 10 * number + u64::from(*digit - b'0');
    }
    number
}

// The byte at a place, or 0 behind the last.
pub(crate) fn byte_at(bytes: &[u8], place: usize) -> u8
    ensures { result ≡ slice_index bytes.now place }
{
    bytes.get(place).copied().unwrap_or(0)
}

// Whether two digits stand at a place.
pub(crate) fn is_pair(bytes: &[u8], place: usize) -> bool
    ensures { result ≡ pair bytes.now place }
{
    match bytes.get(place..) {
        Some([tens, ones, ..]) => tens.is_ascii_digit() && ones.is_ascii_digit(),
        _ => false,
    }
}

// The number that the two digits at a place write.
pub(crate) fn pair_number(bytes: &[u8], place: usize) -> u32
    requires { pair bytes.now place ≡ true }
    ensures value { result ≡ pair_number bytes.now place }
    ensures bound { result < 100 }
{
    10 * u32::from(byte_at(bytes, place) - b'0') + u32::from(byte_at(bytes, place + 1) - b'0')
}

// The byte of a number's last digit.
pub(crate) fn last_digit(number: u32) -> u8
    ensures { result ≡ 48 + number % 10 }
{
    b'0' + (number % 10) as u8
}
