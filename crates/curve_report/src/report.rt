// The lines of a supply.
ghost use Rattle.std.specs.Prelude.{◌≡◌, ℕ, List, ◌∷◌, ◌++◌, map, Some, string_bytes, OnOk, nat_eq};
ghost use Rattle.curve_report.specs.Report.{by_method as count_of, counts_text, energy as energy_of, methods, supply_line, SupplyText};
ghost use Rattle.f5d.specs.Meanings.{record_of};
ghost use Rattle.vocabulary.specs.Methods.{method_number};

use crate::days::write_days;
use f5d::{HourRecord, Method};
use std::alloc::AllocError;
use std::fmt;
use vocabulary::SupplyCode;

// The energy of records in Wh. What memory holds does not pass the type.
fn energy(records: &[HourRecord]) -> u128
    ensures { result ≡ energy_of (map record_of records.now) }
{
    records
        .iter()
        .map(|record| u128::from(record.billed.energy().0))
        .sum()
}

fn has_method(hour: &HourRecord, method: Method) -> bool
    ensures { result ≡ nat_eq (record_of hour.now).method (method_number method) }
{
    hour.billed.method() == method
}

// How many records have a method.
fn by_method(records: &[HourRecord], method: Method) -> usize
    ensures { result ≡ count_of (method_number method) (map record_of records.now) }
{
    records
        .iter()
        .filter(|record| has_method(record, method))
        .count()
}

// How many hours have each method, from the first to the sixth.
#[derive(Clone, Copy)]
struct Methods {
    counts: [usize; 6],
}

impl Methods {
    fn of(records: &[HourRecord]) -> Methods
        ensures { counts_text result.counts ≡ methods (map record_of records.now) }
    {
        let counts = [
            Method::Measured,
            Method::ProfiledFromBalance,
            Method::AdjustedToBalance,
            Method::ProfiledFromOwnReading,
            Method::ProfiledFromHistory,
            Method::ProfiledFromFactor,
        ]
        .map(|method| by_method(records, method));
        Methods { counts }
    }
}

impl fmt::Display for Methods {
    ghost output = { λ t. Some (counts_text t.counts) };

    fn fmt<W: fmt::Write>(&self, f: &mut fmt::Formatter<W>) -> fmt::Result {
        for count in self.counts {
            write!(f, "{count};")?;
        }
        Ok(())
    }
}

// Appends the line of a supply.
fn write_line(
    out: &mut String,
    supply: &SupplyCode,
    records: &[HourRecord],
) -> Result<(), AllocError>
    ensures { OnOk result (string_bytes out.new ≡ string_bytes out.old ++ supply_line supply.now.bytes (map record_of records.now)) }
{
    let hours = records.len();
    let sum = energy(records);
    let methods = Methods::of(records);
    writeln!(out, "{supply};{hours};{sum};{methods}")
}

// Appends what is reported of a supply, whose records these are; nothing where there are none.
pub(crate) fn write_supply(out: &mut String, records: &[HourRecord]) -> Result<(), AllocError>
    ensures { OnOk result ((first : HourRecord) (more : List HourRecord) → records.now ≡ first ∷ more → (bytes : List ℕ) × SupplyText first.at.supply.bytes (map record_of records.now) bytes × (string_bytes out.new ≡ string_bytes out.old ++ bytes)) }
{
    let [first, ..] = records else {
        return Ok(());
    };
    write_line(out, &first.at.supply, records)?;
    write_days(out, records)
}
