// The line of a record, written.
ghost use Rattle.std.specs.Prelude.{◌≡◌, ℕ, ◌+◌, ◌-◌, ◌<◌, ◌≤◌, List, [], ◌∷◌, ◌++◌, length, MatchResult};
ghost use Rattle.f5d.specs.Buffers.{over};
ghost use Rattle.f5d.specs.Meanings.{record_of};
ghost use Rattle.vocabulary.specs.Methods.{firmness_number, method_number};
ghost use Rattle.f5d.specs.Records.{IsLine, line_length};
ghost use Rattle.official_time.specs.Texts.{label_text};
ghost use Rattle.vocabulary.specs.Refusals.{notice, plain};

use crate::billed::BilledHour;
use crate::bytes::last_digit;
use crate::hours::HourRecord;
use crate::pen::Pen;
use itoa::Buffer;
use official_time::Label;
use vocabulary::Refusal;

// `;aaaa/mm/dd hh:mm;f;`: the label's fields, and what parts them from the field before.
fn label_fields(label: Label) -> [u8; 20]
    requires { label.flag ≤ 1 }
    ensures { result ≡ 59 ∷ (label_text label ++ 59 ∷ (48 + label.flag) ∷ 59 ∷ []) }
{
    let date = label.date;
    [
        b';',
        last_digit(date.year / 100 / 10),
        last_digit(date.year / 100),
        last_digit(date.year / 10),
        last_digit(date.year),
        b'/',
        last_digit(date.month / 10),
        last_digit(date.month),
        b'/',
        last_digit(date.day / 10),
        last_digit(date.day),
        b' ',
        last_digit(label.hour / 10),
        last_digit(label.hour),
        b':',
        last_digit(label.minute / 10),
        last_digit(label.minute),
        b';',
        last_digit(label.flag),
        b';',
    ]
}

// The fields between the energy and the invoice: five are empty.
fn method_fields(billed: &BilledHour) -> [u8; 10]
    ensures { result ≡ 59 ∷ 59 ∷ 59 ∷ 59 ∷ 59 ∷ 59 ∷ (48 + method_number billed.now.method) ∷ 59 ∷ (48 + firmness_number billed.now.firmness) ∷ 59 ∷ [] }
{
    let method = b'0' + billed.method().number();
    let firmness = b'0' + billed.firmness().number();
    [
        b';', b';', b';', b';', b';', b';', method, b';', firmness, b';',
    ]
}

impl HourRecord {
    // How many bytes the line of the record has.
    pub fn line_length(&self) -> usize
        ensures { result ≡ line_length (record_of self.now) }
    {
        let mut buffer = Buffer::new();
        let digits = buffer.format(self.billed.energy().0);
        54 + digits.len() + self.billed.invoice().as_bytes().len()
    }

    // Writes the line of the record over the front of the buffer, and gives its length. Refused with 33, and the
    // buffer is as it was, where it is too short.
    pub fn write_line(&self, into: &mut [u8]) -> Result<usize, Refusal>
        ensures { MatchResult result (λ n. (line : List ℕ) × IsLine (record_of self.now) line × (n ≡ length line) × (into.new ≡ over line into.old)) (λ e. (notice e ≡ plain 33) × (length into.old < line_length (record_of self.now)) × (into.new ≡ into.old)) }
    {
        if into.len() < self.line_length() {
            return Err(Refusal::BufferTooShort);
        }
        let mut pen = Pen::new(into);
        pen.put(self.at.supply.as_bytes());
        pen.put(&label_fields(self.at.hour.label()));
        let mut buffer = Buffer::new();
        let digits = buffer.format(self.billed.energy().0);
        pen.put(digits.as_bytes());
        pen.put(&method_fields(&self.billed));
        pen.put(self.billed.invoice().as_bytes());
        pen.put(b";\n");
        Ok(pen.written())
    }
}
