// The names of files.
ghost use Rattle.std.specs.Prelude.{if◌then◌else◌, ◌≡◌, ◌+◌, ◌*◌, ◌<◌, ◌≤◌, min, true, false, not, ◌&&◌, ◌||◌, [], ◌∷◌, ◌++◌, length, Some, MatchOption, MatchResult, ◌==◌, ◌≢◌, nat_eq, nat_le, nat_lt, slice_index};
ghost use Rattle.f5d.specs.Buffers.{over};
ghost use Rattle.f5d.specs.FileNames.{name_of, name_told};
ghost use Rattle.f5d.specs.Names.{comes_next, date_digits, IsName, Name, name_text, named_behind, read_name, version_written, word_text};
ghost use Rattle.f5d.specs.Reading.{leading as leading_of, number as number_of, pair, pair_number};
ghost use Rattle.vocabulary.specs.Codes.{digit};
ghost use Rattle.f5d.specs.declared.name.Word.{Word};
ghost use Rattle.official_time.specs.Dates.{day_of, on};
ghost use Rattle.vocabulary.specs.Refusals.{notice, plain};

use crate::bytes::{byte_at, has_at, is_pair, last_digit, leading, number, pair_number};
use crate::file_name::FileName;
use crate::pen::Pen;
use itoa::Buffer;
use official_time::Date;
use std::fmt;
use std::str::from_utf8;
use vocabulary::{Alphabet, ParticipantCode, Refusal, ascii_text};

// Whether a file's curves are sent for the first time or again.
#[derive(Clone, Copy)]
pub enum Word {
    // F5D
    F5d,
    // RF5D
    Rf5d,
}

impl Word {
    // The word as names have it.
    pub fn text(self) -> &'static str
        ensures { result.now ≡ word_text self }
    {
        match self {
            Word::F5d => "F5D",
            Word::Rf5d => "RF5D",
        }
    }
}

// The word that a text is; any other text is refused with 12.
impl TryFrom<&str> for Word {
    type Error = Refusal;

    ghost try_from_gives = { λ text r. MatchResult r (λ w. word_text w ≡ text.now) (λ e. (notice e ≡ plain 12) × ((w : Word) → word_text w ≢ text.now)) };

    fn try_from(text: &str) -> Result<Word, Refusal> {
        match text {
            "F5D" => Ok(Word::F5d),
            "RF5D" => Ok(Word::Rf5d),
            _ => Err(Refusal::NotListed),
        }
    }
}

// The word that bytes are.
fn word_of(bytes: &[u8]) -> Option<Word>
    ensures { MatchOption result ((w : Word) → word_text w ≢ bytes.now) (λ w. word_text w ≡ bytes.now) }
{
    Word::try_from(from_utf8(bytes).ok()?).ok()
}

// Where the word of a name ends: it has three bytes, if `_` stands behind them, or else four.
fn word_end(text: &[u8]) -> usize
    ensures value { result ≡ (if nat_eq (slice_index text.now 3) 95 then 3 else min 4 (length text.now)) }
    ensures within { result ≤ length text.now }
{
    if has_at(text, 3, b'_') {
        3
    } else {
        text.len().min(4)
    }
}

// Whether `_` and `.` stand where `_DIS_COM_aaaammdd.` has them; the codes have four bytes each.
fn is_parted(bytes: &[u8]) -> bool
    ensures value { result ≡ (slice_index bytes.now 0 == 95 && slice_index bytes.now 5 == 95 && slice_index bytes.now 10 == 95 && slice_index bytes.now 19 == 46) }
    ensures within { result ≡ true → 20 ≤ length bytes.now }
{
    has_at(bytes, 0, b'_')
        && has_at(bytes, 5, b'_')
        && has_at(bytes, 10, b'_')
        && has_at(bytes, 19, b'.')
}

// Whether the digits of a date stand there.
fn is_dated(bytes: &[u8]) -> bool
    ensures { result ≡ (pair bytes.now 11 && pair bytes.now 13 && pair bytes.now 15 && pair bytes.now 17) }
{
    is_pair(bytes, 11) && is_pair(bytes, 13) && is_pair(bytes, 15) && is_pair(bytes, 17)
}

// The date that the digits there write.
fn date_at(bytes: &[u8]) -> Date
    requires { (pair bytes.now 11 && pair bytes.now 13 && pair bytes.now 15 && pair bytes.now 17) ≡ true }
    ensures { result ≡ on (100 * pair_number bytes.now 11 + pair_number bytes.now 13) (pair_number bytes.now 15) (pair_number bytes.now 17) }
{
    Date {
        year: 100 * pair_number(bytes, 11) + pair_number(bytes, 13),
        month: pair_number(bytes, 15),
        day: pair_number(bytes, 17),
    }
}

// Whether a text is one to three digits, with no 0 before others.
fn is_numeral(text: &[u8]) -> bool
    ensures { result ≡ (nat_le 1 (length text.now) && nat_le (length text.now) 3 && (leading_of digit 3 text.now) == length text.now && (length text.now == 1 || not (slice_index text.now 0 == 48))) }
{
    let count = text.len();
    count >= 1
        && count <= 3
        && leading(Alphabet::Digits, 3, text) == count
        && (count == 1 || byte_at(text, 0) != b'0')
}

// The version that a text writes.
fn version_of(text: &[u8]) -> Option<u8>
    ensures { MatchOption result (version_written text.now ≡ false) (λ v. (version_written text.now ≡ true) × (v ≡ number_of 0 text.now)) }
{
    if !is_numeral(text) {
        return None;
    }
    u8::try_from(number(text)).ok()
}

// The name that a word and what stands behind it are.
fn name_behind(word: Word, bytes: &[u8]) -> Option<FileName>
    ensures { name_told result ≡ named_behind word bytes.now }
{
    if !is_parted(bytes) {
        return None;
    }
    if !is_dated(bytes) {
        return None;
    }
    let distributor = ParticipantCode::try_from(&bytes[1..5]).ok()?;
    let retailer = ParticipantCode::try_from(&bytes[6..10]).ok()?;
    let version = version_of(&bytes[20..])?;
    FileName::new(word, distributor, retailer, date_at(bytes), version).ok()
}

// The name that a text is.
fn name_in(text: &[u8]) -> Option<FileName>
    ensures { name_told result ≡ read_name text.now }
{
    let end = word_end(text);
    name_behind(word_of(&text[..end])?, &text[end..])
}

// The name that a text is, the only one; any other text is refused with 13, line 0 and no field.
impl TryFrom<&[u8]> for FileName {
    type Error = Refusal;

    ghost try_from_gives = { λ text r. MatchResult r (λ n. IsName (name_of n) text.now × ((m : Name) → IsName m text.now → m ≡ name_of n)) (λ e. (notice e ≡ plain 13) × ((n : Name) → IsName n text.now → ⊥)) };

    fn try_from(text: &[u8]) -> Result<FileName, Refusal> {
        name_in(text).ok_or(Refusal::MalformedName)
    }
}

// `_aaaammdd.`: a date, and what parts it from the code before and the version behind.
fn date_part(date: Date) -> [u8; 10]
    ensures { result ≡ 95 ∷ (date_digits date ++ 46 ∷ []) }
{
    [
        b'_',
        last_digit(date.year / 100 / 10),
        last_digit(date.year / 100),
        last_digit(date.year / 10),
        last_digit(date.year),
        last_digit(date.month / 10),
        last_digit(date.month),
        last_digit(date.day / 10),
        last_digit(date.day),
        b'.',
    ]
}

// The number of the day of a name's date.
fn day_number(name: &FileName) -> u32
    ensures { result ≡ day_of name.now.date }
{
    name.date().day().unwrap().number()
}

// Whether it is the next version on the same day, or the first on a later one.
fn is_next_version(day: u32, version: u8, last_day: u32, last_version: u8) -> bool
    ensures { result ≡ ((nat_eq day last_day && version == last_version + 1) || (nat_lt last_day day && version == 0)) }
{
    (day == last_day && u32::from(version) == u32::from(last_version) + 1)
        || (last_day < day && version == 0)
}

impl FileName {
    // How many bytes the text of the name has; they are 27 at most.
    pub fn text_length(&self) -> usize
        ensures value { result ≡ length (name_text (name_of self.now)) }
        ensures most { result ≤ 27 }
    {
        let mut buffer = Buffer::new();
        let digits = buffer.format(self.version());
        self.word().text().len() + 20 + digits.len()
    }

    // Writes the text of the name over the front of the buffer, and gives its length. Refused with 33, and the
    // buffer is as it was, where it is too short; 27 bytes always suffice.
    pub fn write(&self, into: &mut [u8]) -> Result<usize, Refusal>
        ensures { MatchResult result (λ n. (n ≡ length (name_text (name_of self.now))) × (into.new ≡ over (name_text (name_of self.now)) into.old)) (λ e. (notice e ≡ plain 33) × (length into.old < length (name_text (name_of self.now))) × (into.new ≡ into.old)) }
    {
        if into.len() < self.text_length() {
            return Err(Refusal::BufferTooShort);
        }
        let mut pen = Pen::new(into);
        pen.put(self.word().text().as_bytes());
        pen.put_code(self.distributor());
        pen.put_code(self.retailer());
        pen.put(&date_part(self.date()));
        let mut buffer = Buffer::new();
        let digits = buffer.format(self.version());
        pen.put(digits.as_bytes());
        Ok(pen.written())
    }

    // Whether this name comes next after the last one: of the same distributor and retailer, the next version on the
    // same date, or version 0 on a later one.
    pub fn comes_next(&self, last: &FileName) -> bool
        ensures { result ≡ comes_next (name_of last.now) (name_of self.now) }
    {
        last.distributor() == self.distributor()
            && last.retailer() == self.retailer()
            && is_next_version(
                day_number(self),
                self.version(),
                day_number(last),
                last.version(),
            )
    }
}

impl fmt::Display for FileName {
    ghost output = { λ n. Some (name_text (name_of n)) };

    fn fmt<W: fmt::Write>(&self, f: &mut fmt::Formatter<W>) -> fmt::Result {
        let word = self.word().text();
        let distributor = self.distributor();
        let retailer = self.retailer();
        let part = date_part(self.date());
        let date = ascii_text(&part);
        let version = self.version();
        write!(f, "{word}_{distributor}_{retailer}{date}{version}")
    }
}
