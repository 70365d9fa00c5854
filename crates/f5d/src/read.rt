// Lines, read.
ghost use Rattle.std.specs.Prelude.{if◌then◌else◌, ◌≡◌, ℕ, ◌+◌, ◌-◌, ◌<◌, ◌≤◌, true, false, not, ◌&&◌, ◌||◌, List, length, take, drop, IfOk, MatchOption, MatchResult, OnOk, ◌==◌, nat_le, slice_index};
ghost use Rattle.f5d.specs.Meanings.{invoice_text};
ghost use Rattle.vocabulary.specs.Methods.{firmness_number, method_number};
ghost use Rattle.f5d.specs.Reading.{clock_written, ends_at, label_under, LineRead, RightLine, leading as leading_of, number as number_of, one_digit, bad, read_empty, read_energy, read_label, read_line, read_method};
ghost use Rattle.vocabulary.specs.Codes.{digit};
ghost use Rattle.f5d.specs.Told.{billed_told, clock_right, energy_right, flag_right, flag_written, hour_told, invoice_right, line_told, place_of};
ghost use Rattle.official_time.specs.Hours.{is_label, meant};
ghost use Rattle.vocabulary.specs.Codes.{is_supply, visible};

use crate::billed::BilledHour;
use crate::bytes::{byte_at, ends_at, is_pair, leading, number, pair_number};
use crate::hours::{HourRecord, SupplyHour};
use crate::line::{Line, Taken};
use official_time::{Date, Hour, Label};
use vocabulary::{Alphabet, Field, Firmness, InvoiceCode, Method, SupplyCode, Wh};

// A: 22 digits or capital letters.
fn supply_field(bytes: &[u8]) -> Option<SupplyCode>
    ensures { MatchOption result ((is_supply (take 22 bytes.now) && ends_at bytes.now 22) ≡ false) (λ c. ((is_supply (take 22 bytes.now) && ends_at bytes.now 22) ≡ true) × (c.bytes ≡ take 22 bytes.now) × (23 ≤ length bytes.now)) }
{
    if !ends_at(bytes, 22) {
        return None;
    }
    SupplyCode::try_from(&bytes[..22]).ok()
}

// Whether the bytes begin with `aaaa/mm/dd hh:mm`.
fn is_clock_text(bytes: &[u8]) -> bool
    ensures { (result && ends_at bytes.now 16) ≡ clock_written bytes.now }
{
    is_pair(bytes, 0)
        && is_pair(bytes, 2)
        && byte_at(bytes, 4) == b'/'
        && is_pair(bytes, 5)
        && byte_at(bytes, 7) == b'/'
        && is_pair(bytes, 8)
        && byte_at(bytes, 10) == b' '
        && is_pair(bytes, 11)
        && byte_at(bytes, 13) == b':'
        && is_pair(bytes, 14)
}

// Bytes that begin with such a clock, and `;` behind it.
#[derive(Clone, Copy)]
struct Clock<'a> {
    bytes: &'a [u8],
    ghost written: { clock_written bytes.now ≡ true },
}

impl<'a> Clock<'a> {
    // The `;` is looked at first: all other places are then within the bytes.
    fn of(bytes: &'a [u8]) -> Option<Clock<'a>>
        ensures { MatchOption result (clock_written bytes.now ≡ false) (λ c. c.bytes.now ≡ bytes.now) }
    {
        if ends_at(bytes, 16) && is_clock_text(bytes) {
            Some(Clock { bytes })
        } else {
            None
        }
    }

    // The label that is written there, under a flag.
    fn label_under(&self, flag: u32) -> Label
        ensures { result ≡ label_under self.now.bytes.now flag }
    {
        let bytes = self.bytes;
        let date = Date {
            year: 100 * pair_number(bytes, 0) + pair_number(bytes, 2),
            month: pair_number(bytes, 5),
            day: pair_number(bytes, 8),
        };
        Label {
            date,
            hour: pair_number(bytes, 11),
            minute: pair_number(bytes, 14),
            second: 0,
            flag,
        }
    }

    // The hour that has the label, if any.
    fn hour_under(&self, flag: u32) -> Option<Hour>
        ensures { MatchOption result (is_label (label_under self.now.bytes.now flag) ≡ false) (λ h. (is_label (label_under self.now.bytes.now flag) ≡ true) × (h.number ≡ meant (label_under self.now.bytes.now flag))) }
    {
        self.label_under(flag).hour().ok()
    }

    // The hour under the flag that is written.
    fn flagged_hour(&self) -> Option<Hour>
        ensures { MatchOption result (flag_right self.now.bytes.now ≡ false) (λ h. (flag_right self.now.bytes.now ≡ true) × (h.number ≡ meant (label_under self.now.bytes.now (flag_written self.now.bytes.now))) × (19 ≤ length self.now.bytes.now)) }
    {
        let flag = digit_field(self.bytes, 17, 0, 1)?;
        self.hour_under(u32::from(flag))
    }

    // Which field is bad where the written flag gives no hour: the flag, if one of the two does.
    fn unflagged(&self) -> Field
        ensures { place_of result ≡ (if clock_right self.now.bytes.now then 2 else 1) }
    {
        if self.hour_under(0).is_some() || self.hour_under(1).is_some() {
            Field::Season
        } else {
            Field::Label
        }
    }
}

// The digit from a least to a greatest that stands at a place, with `;` behind it.
fn digit_field(bytes: &[u8], place: usize, low: u8, high: u8) -> Option<u8>
    requires { (low ≤ 9) × (high ≤ 9) }
    ensures { MatchOption result (one_digit low high (drop place bytes.now) ≡ false) (λ n. (one_digit low high (drop place bytes.now) ≡ true) × (n ≡ slice_index bytes.now place - 48) × (place + 2 ≤ length bytes.now)) }
{
    match bytes.get(place..) {
        Some([digit, b';', ..]) if (b'0' + low..=b'0' + high).contains(digit) => Some(
            *digit - b'0',
        ),
        _ => None,
    }
}

// B and C: the hour that has the label under the flag that is written.
fn hour_field(bytes: &[u8]) -> Result<Hour, Field>
    ensures told { (supply : List ℕ) → hour_told (λ h. read_energy supply h (drop 19 bytes.now)) result ≡ read_label supply bytes.now }
    ensures within { OnOk result (19 ≤ length bytes.now) }
{
    let clock = Clock::of(bytes).ok_or(Field::Label)?;
    match clock.flagged_hour() {
        Some(hour) => Ok(hour),
        None => Err(clock.unflagged()),
    }
}

// D: at most ten digits, and no 0 before others; with the count of its digits.
fn energy_field(bytes: &[u8]) -> Option<Taken<Wh>>
    ensures { MatchOption result (energy_right bytes.now ≡ false) (λ x. (energy_right bytes.now ≡ true) × (x.length ≡ leading_of digit 10 bytes.now) × (x.value.0 ≡ number_of 0 (take x.length bytes.now)) × (x.value.0 ≤ 9999999999) × (x.length < length bytes.now)) }
{
    let length = leading(Alphabet::Digits, 10, bytes);
    if length == 0 || !ends_at(bytes, length) {
        return None;
    }
    if length > 1 && bytes[0] == b'0' {
        return None;
    }
    let value = Wh(number(&bytes[..length]));
    Some(Taken { value, length })
}

// Whether an invoice code of so many bytes ends there, and with it the line.
fn is_line_end(bytes: &[u8], count: usize) -> bool
    ensures value { result ≡ (nat_le 1 count && ends_at bytes.now count && slice_index bytes.now (count + 1) == 10) }
    ensures within { result ≡ true → (1 ≤ count) × (count + 2 ≤ length bytes.now) }
{
    count >= 1 && matches!(bytes.get(count..), Some([b';', b'\n', ..]))
}

// L, and the line's end; with the count of its bytes.
fn invoice_field(bytes: &[u8]) -> Option<Taken<InvoiceCode>>
    ensures { MatchOption result (invoice_right bytes.now ≡ false) (λ x. (invoice_right bytes.now ≡ true) × (x.length ≡ leading_of visible 26 bytes.now) × (invoice_text x.value ≡ take x.length bytes.now) × (x.length + 2 ≤ length bytes.now)) }
{
    let length = leading(Alphabet::Visible, 26, bytes);
    if !is_line_end(bytes, length) {
        return None;
    }
    let value = InvoiceCode::try_from(&bytes[..length]).ok()?;
    Some(Taken { value, length })
}

// The fields D to L.
fn billed_fields(bytes: &[u8]) -> Result<Taken<BilledHour>, Field>
    ensures told { (supply : List ℕ) (hour : ℕ) → billed_told supply hour bytes.now result ≡ read_energy supply hour bytes.now }
    ensures within { IfOk result (λ b. b.length ≤ length bytes.now) }
{
    let active = energy_field(bytes).ok_or(Field::ActiveIn)?;
    let rest = &bytes[active.length + 1..];
    empty_fields(rest)?;
    let method = method_field(rest).ok_or(Field::Method)?;
    let firmness = firmness_field(rest).ok_or(Field::Firmness)?;
    let end = invoice_field(&rest[9..]).ok_or(Field::Invoice)?;
    let billed = BilledHour::of(active.value, method, firmness, end.value);
    Ok(Taken {
        value: billed,
        length: active.length + end.length + 12,
    })
}

// The five empty fields E to I; the first that is not empty is the error.
fn empty_fields(bytes: &[u8]) -> Result<(), Field>
    ensures { (supply : List ℕ) (hour wh : ℕ) → MatchResult result (λ _. read_empty 5 supply hour wh bytes.now ≡ read_method supply hour wh (drop 5 bytes.now)) (λ f. read_empty 5 supply hour wh bytes.now ≡ bad (place_of f)) }
{
    if !ends_at(bytes, 0) {
        return Err(Field::ActiveOut);
    }
    if !ends_at(bytes, 1) {
        return Err(Field::Reactive1);
    }
    if !ends_at(bytes, 2) {
        return Err(Field::Reactive2);
    }
    if !ends_at(bytes, 3) {
        return Err(Field::Reactive3);
    }
    if !ends_at(bytes, 4) {
        return Err(Field::Reactive4);
    }
    Ok(())
}

// J, behind the five empty fields.
fn method_field(bytes: &[u8]) -> Option<Method>
    ensures { MatchOption result (one_digit 1 6 (drop 5 bytes.now) ≡ false) (λ m. (one_digit 1 6 (drop 5 bytes.now) ≡ true) × (method_number m ≡ slice_index bytes.now 5 - 48) × (7 ≤ length bytes.now)) }
{
    Method::try_from(digit_field(bytes, 5, 1, 6)?).ok()
}

// K, behind J.
fn firmness_field(bytes: &[u8]) -> Option<Firmness>
    ensures { MatchOption result (one_digit 0 1 (drop 7 bytes.now) ≡ false) (λ f. (one_digit 0 1 (drop 7 bytes.now) ≡ true) × (firmness_number f ≡ slice_index bytes.now 7 - 48) × (9 ≤ length bytes.now)) }
{
    Firmness::try_from(digit_field(bytes, 7, 0, 1)?).ok()
}

// The fields A to L.
fn read_fields(bytes: &[u8]) -> Result<Line, Field>
    ensures told { line_told bytes.now result ≡ read_line bytes.now }
    ensures within { IfOk result (λ l. l.length ≤ length bytes.now) }
{
    let supply = supply_field(bytes).ok_or(Field::Supply)?;
    let hour = hour_field(&bytes[23..])?;
    let fields = billed_fields(&bytes[42..])?;
    let at = SupplyHour { supply, hour };
    let value = HourRecord {
        at,
        billed: fields.value,
    };
    Ok(Taken {
        value,
        length: 42 + fields.length,
    })
}

impl HourRecord {
    // The record whose line the bytes begin with, and the length of the line, whatever stands behind it; or the
    // first bad field, where they begin with no record's line.
    pub fn read_line(bytes: &[u8]) -> Result<Line, Field>
        ensures told { line_told bytes.now result ≡ read_line bytes.now }
        ensures right { RightLine bytes.now (line_told bytes.now result) }
        ensures only { (x : LineRead) → RightLine bytes.now x → x ≡ line_told bytes.now result }
        ensures within { IfOk result (λ l. l.length ≤ length bytes.now) }
    {
        read_fields(bytes)
    }
}
