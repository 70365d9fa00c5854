// The pictures of clock days.
ghost use Rattle.std.specs.Prelude.{◌≡◌, ℕ, ◌≤◌, true, List, ◌++◌, IsAscii, map, length, take, drop, string_bytes, IfOk, OnOk};
ghost use Rattle.curve_report.specs.Report.{Days, DaySigns, DayText, leaves_day, on_day};
ghost use Rattle.f5d.specs.Meanings.{record_of};
ghost use Rattle.f5d.specs.Records.{every_record};

use f5d::HourRecord;
use official_time::{Day, DayHours};
use std::alloc::{AllocError, Global};
use vocabulary::ascii_text;

// A sign for each hour of a clock day, on which these records lie.
fn signs(alloc: Global, day: Day, records: &[HourRecord]) -> Result<Vec<u8>, AllocError>
    requires { every_record (on_day day.number) (map record_of records.now) ≡ true }
    ensures signs { IfOk result (λ signs. DaySigns day.number (map record_of records.now) signs.items) }
    ensures ascii { IfOk result (λ signs. IsAscii signs.items) }
{
    let hours = DayHours::of(day);
    let first = hours.first.number();
    let last = hours.last.number();
    let count = (last + 1 - first) as usize;
    let mut signs = vec![in alloc; b'.'; count]?;
    for record in records {
        let place = (record.at.hour.number() - first) as usize;
        signs[place] = b'0' + record.billed.method().number();
    }
    Ok(signs)
}

// Appends the picture of a clock day, on which these records lie.
fn write_day(out: &mut String, day: Day, records: &[HourRecord]) -> Result<(), AllocError>
    requires { every_record (on_day day.number) (map record_of records.now) ≡ true }
    ensures { OnOk result ((bytes : List ℕ) × DayText day.number (map record_of records.now) bytes × (string_bytes out.new ≡ string_bytes out.old ++ bytes)) }
{
    let date = day.date();
    let signs = signs(*out.allocator(), day, records)?;
    let picture = ascii_text(&signs);
    writeln!(out, "  {date} {picture}")
}

// How many of the first records lie on a clock day.
fn day_end(records: &[HourRecord], day: Day) -> usize
    ensures high_bound { result ≤ length records.now }
    ensures all { every_record (on_day day.number) (map record_of (take result records.now)) ≡ true }
    ensures ends { leaves_day day.number (map record_of (drop result records.now)) ≡ true }
{
    records
        .iter()
        .take_while(|record| record.at.hour.clock_day() == day)
        .count()
}

// Appends the pictures of the clock days that have records.
pub(crate) fn write_days(out: &mut String, records: &[HourRecord]) -> Result<(), AllocError>
    ensures { OnOk result ((bytes : List ℕ) × Days (map record_of records.now) bytes × (string_bytes out.new ≡ string_bytes out.old ++ bytes)) }
{
    let mut rest = records;
    while let [first, ..] = rest {
        let day = first.at.hour.clock_day();
        let (of_day, others) = rest.split_at(day_end(rest, day));
        write_day(out, day, of_day)?;
        rest = others;
    }
    Ok(())
}
