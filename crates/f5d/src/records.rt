// The records of a file, one after the other.
ghost use Rattle.std.specs.Prelude.{◌≡◌, ℕ, length, MatchOption};
ghost use Rattle.std.specs.Iterator.{at_most};
ghost use Rattle.f5d.specs.Meanings.{record_of};
ghost use Rattle.f5d.specs.Reading.{bad, good, read_line};

use crate::hours::HourRecord;

// Hands out the records of lines over lent bytes, and copies none of these. A copy hands out what was still to
// come when it was made.
#[derive(Clone, Copy)]
pub struct Records<'a> {
    rest: &'a [u8],
}

impl<'a> Records<'a> {
    pub fn new(bytes: &'a [u8]) -> Records<'a>
        ensures { result.rest.now ≡ bytes.now }
    {
        Records { rest: bytes }
    }

    // The bytes that were not handed out yet.
    pub fn rest(&self) -> &'a [u8]
        ensures { result.now ≡ self.now.rest.now }
    {
        self.rest
    }
}

// The records of the lines, in turn. None where no line is next: at the end of a file that was checked, or at a line
// that is malformed; nothing is passed over then.
impl Iterator for Records<'_> {
    type Item = HourRecord;

    ghost next_gives = { λ s r t. MatchOption r ((f : ℕ) × (read_line s.rest.now ≡ bad f) × (t.rest.now ≡ s.rest.now)) (λ q. read_line s.rest.now ≡ good (record_of q) t.rest.now) };

    ghost remaining = { λ s. at_most (length s.rest.now) };

    fn next(&mut self) -> Option<HourRecord> {
        let line = HourRecord::read_line(self.rest).ok()?;
        self.rest = &self.rest[line.length..];
        Some(line.value)
    }
}
