// Files, checked whole.
ghost use Rattle.std.specs.Prelude.{◌≡◌, ℕ, ◌+◌, ◌<◌, ◌≤◌, true, false, List, [], ◌∷◌, ◌++◌, length, drop, IfOk, MatchResult};
ghost use Rattle.f5d.specs.Passing.{Knows, Passed, RefusedFile};
ghost use Rattle.f5d.specs.Meanings.{record_of};
ghost use Rattle.f5d.specs.Reading.{FileReading, LineHere};
ghost use Rattle.f5d.specs.Records.{apart, can_bear, every_record, FirstBad, Holds, in_turn, Lines, Record};
ghost use Rattle.vocabulary.specs.Refusals.{in_line, notice};

use crate::hours::{HourRecord, SupplyHour};
use crate::line::Line;
use crate::marks::Marks;
use crate::passed::Turns;
use crate::records::Records;
use vocabulary::{Refusal, SupplyCode};

// Whether no line is of the supply; they are gone through until one is.
fn lacks(bytes: &[u8], supply: &SupplyCode) -> bool
    ensures { (done : List Record) → Lines done bytes.now → every_record can_bear done ≡ true → result ≡ apart supply.now.bytes done }
{
    for record in Records::new(bytes) {
        if *supply == record.at.supply {
            return false;
        }
    }
    true
}

impl Turns {
    // What is known behind the first record.
    fn begin(first: SupplyHour) -> Turns
        ensures { (q : Record) → q.supply ≡ first.supply.bytes → q.hour ≡ first.hour.number → Knows result (q ∷ []) }
    {
        let mut marks = Marks::new();
        marks.note(&first.supply);
        Turns {
            last: first,
            highest: first.supply,
            marks,
        }
    }

    // Whether a supply has no record among those that were passed, whose lines are lent. A code above all of them
    // has none, nor has one without its marks; only for the others are the lines gone through again.
    fn is_new(&self, supply: &SupplyCode, passed: &[u8]) -> bool
        ensures { (done : List Record) → Knows self.now done → Lines done passed.now → every_record can_bear done ≡ true → result ≡ apart supply.now.bytes done }
    {
        self.highest.cmp(supply).is_lt() || !self.marks.has(supply) || lacks(passed, supply)
    }

    // Whether a record may come next.
    fn allows(&self, next: &SupplyHour, passed: &[u8]) -> bool
        ensures { (done : List Record) (q : Record) → Knows self.now done → Lines done passed.now → every_record can_bear done ≡ true → in_turn done ≡ true → q.supply ≡ next.now.supply.bytes → q.hour ≡ next.now.hour.number → result ≡ in_turn (done ++ q ∷ []) }
    {
        if self.last.supply == next.supply {
            self.last.hour < next.hour
        } else {
            self.is_new(&next.supply, passed)
        }
    }

    // Takes note of the next record.
    fn pass(&mut self, next: SupplyHour)
        ensures { (done : List Record) (q : Record) → Knows self.old done → q.supply ≡ next.supply.bytes → q.hour ≡ next.hour.number → Knows self.new (done ++ q ∷ []) }
    {
        if self.last.supply == next.supply {
            self.last = next;
            return;
        }
        self.marks.note(&next.supply);
        self.highest = self.highest.max(next.supply);
        self.last = next;
    }
}

// Reads the line that the bytes begin with, which is line `line` of its file.
fn read_line(bytes: &[u8], line: usize) -> Result<Line, Refusal>
    ensures read { MatchResult result (λ l. LineHere bytes.now (record_of l.value) (drop l.length bytes.now)) (λ e. (f : ℕ) × FirstBad f bytes.now × (notice e ≡ in_line 13 line (65 + f))) }
    ensures within { IfOk result (λ l. l.length ≤ length bytes.now) }
{
    HourRecord::read_line(bytes).map_err(|field| Refusal::MalformedLine { line, field })
}

// Reads the line at a place, which is line `line`, behind records that were passed, and gives its length.
fn next_line(turns: &mut Turns, bytes: &[u8], at: usize, line: usize) -> Result<usize, Refusal>
    requires { at < length bytes.now }
    ensures read { (done : List Record) → Knows turns.old done → Passed bytes.now at done → line ≡ length done + 1 → MatchResult result (λ n. (q : Record) × Knows turns.new (done ++ q ∷ []) × Passed bytes.now (at + n) (done ++ q ∷ [])) (λ e. RefusedFile bytes.now (notice e)) }
    ensures within { IfOk result (λ n. (0 < n) × (at + n ≤ length bytes.now)) }
{
    let next = read_line(&bytes[at..], line)?;
    if !turns.allows(&next.value.at, &bytes[..at]) {
        return Err(Refusal::OutOfTurn { line });
    }
    turns.pass(next.value.at);
    Ok(next.length)
}

// Checks a file whole, and gives the number of its records. It is accepted exactly where one or more records, in
// turn, write it. Refused with 13, the line and its first bad field, or with 14 and the line: at the first line
// that is malformed or out of turn.
pub fn check_file(bytes: &[u8]) -> Result<usize, Refusal>
    ensures cases { MatchResult result (λ n. (rs : List Record) × Holds bytes.now rs × (n ≡ length rs)) (λ e. RefusedFile bytes.now (notice e)) }
    ensures one_reading { FileReading }
{
    let first = read_line(bytes, 1)?;
    let mut turns = Turns::begin(first.value.at);
    let mut at = first.length;
    let mut line = 1;
    while at < bytes.len() {
        at += next_line(&mut turns, bytes, at, line + 1)?;
        line += 1;
    }
    Ok(line)
}
