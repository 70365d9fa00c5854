// The lines of hours.
ghost use Rattle.std.specs.Prelude.{◌≡◌, ℕ, List, ◌++◌, Some, string_bytes, MatchResult, OnOk};
ghost use Rattle.official_time.specs.Hours.{IsLabel};
ghost use Rattle.tariff_day.specs.Report.{Answers, DayText, hour_line, IsDay, line_text};
ghost use Rattle.vocabulary.specs.Refusals.{notice, plain};
ghost use Rattle.tariff.specs.Rules.{period_20a as rule_20a, period_20dha as rule_20dha, period_20td as rule_20td};

use official_time::{Date, Day, DayHours, Hour, Label};
use std::alloc::AllocError;
use std::fmt;
use tariff::{Calendar, Calendar20A, Calendar20Dha, Calendar20Td};
use vocabulary::Refusal;

// What is told of an hour.
#[derive(Clone, Copy)]
struct HourLine {
    hour: Hour,
    label: Label,
    period_20a: usize,
    period_20dha: usize,
    period_20td: usize,
}

impl HourLine {
    fn of(td: &Calendar20Td, hour: Hour) -> HourLine
        ensures hour { result.hour.number ≡ hour.number }
        ensures label { IsLabel hour.number result.label }
        ensures periods { (result.period_20a ≡ rule_20a hour.number) × (result.period_20dha ≡ rule_20dha hour.number) × (result.period_20td ≡ rule_20td td.now.holidays.items.now hour.number) }
    {
        HourLine {
            hour,
            label: hour.label(),
            period_20a: Calendar20A.period(hour),
            period_20dha: Calendar20Dha.period(hour),
            period_20td: td.period(hour),
        }
    }
}

impl fmt::Display for HourLine {
    ghost output = { λ l. Some (line_text l.hour.number l.label l.period_20a l.period_20dha l.period_20td) };

    fn fmt<W: fmt::Write>(&self, f: &mut fmt::Formatter<W>) -> fmt::Result {
        let number = self.hour.number();
        let label = self.label;
        let flag = label.flag;
        let a = self.period_20a;
        let b = self.period_20dha;
        let c = self.period_20td;
        writeln!(f, "{number};{label};{flag};{a};{b};{c}")
    }
}

// Appends the line of an hour.
fn write_hour(out: &mut String, td: &Calendar20Td, hour: Hour) -> Result<(), AllocError>
    ensures { OnOk result ((l : Label) × IsLabel hour.number l × (string_bytes out.new ≡ string_bytes out.old ++ hour_line td.now.holidays.items.now hour.number l)) }
{
    let line = HourLine::of(td, hour);
    write!(out, "{line}")
}

// Appends the lines of the hours of a clock day.
fn write_day(out: &mut String, td: &Calendar20Td, day: Day) -> Result<(), AllocError>
    ensures { OnOk result ((bytes : List ℕ) × DayText td.now.holidays.items.now day.number bytes × (string_bytes out.new ≡ string_bytes out.old ++ bytes)) }
{
    let hours = DayHours::of(day);
    for number in hours.first.number()..=hours.last.number() {
        write_hour(out, td, Hour::new(number).unwrap())?;
    }
    Ok(())
}

// Appends the answer to a line of input.
pub fn answer(out: &mut String, td: &Calendar20Td, line: &[u8]) -> Result<(), AllocError>
    ensures { OnOk result ((bytes : List ℕ) × Answers td.now.holidays.items.now line.now bytes × (string_bytes out.new ≡ string_bytes out.old ++ bytes)) }
{
    match day_of(line) {
        Ok(day) => write_day(out, td, day),
        Err(refusal) => writeln!(out, "{refusal}"),
    }
}

// The day whose date is written; refused with 16 where there is none.
fn day_of(line: &[u8]) -> Result<Day, Refusal>
    ensures { MatchResult result (λ d. IsDay line.now d.number) (λ e. (notice e ≡ plain 16) × ((d : ℕ) → IsDay line.now d → ⊥)) }
{
    Date::try_from(line)?.day()
}
