// The records of one supply, one behind the other.
ghost use Rattle.std.specs.Prelude.{◌≡◌, ℕ, ◌<◌, true, false, ◌⊎◌, List, [], map, length, IfNone, IfOk, IfSome, MatchOption};
ghost use Rattle.curve_report.specs.Report.{of_supply, Stretch};
ghost use Rattle.f5d.specs.Meanings.{record_of};
ghost use Rattle.f5d.specs.Reading.{bad, good, read_line};
ghost use Rattle.f5d.specs.Records.{can_bear, every_record, Lines, Record};

use f5d::{HourRecord, Records};
use std::alloc::{AllocError, Global};
use vocabulary::SupplyCode;

// Takes the next record if it is of the supply.
fn take_next(records: &mut Records, supply: &SupplyCode) -> Option<HourRecord>
    ensures taken { MatchOption result (((f : ℕ) × (read_line records.old.rest.now ≡ bad f)) ⊎ ((q : Record) × (more : List ℕ) × (read_line records.old.rest.now ≡ good q more) × (of_supply supply.now.bytes q ≡ false))) (λ next. (read_line records.old.rest.now ≡ good (record_of next) records.new.rest.now) × (of_supply supply.now.bytes (record_of next) ≡ true)) }
    ensures left { IfNone result (records.new.rest.now ≡ records.old.rest.now) }
{
    let mut ahead = *records;
    let next = ahead.next().filter(|next| next.at.supply == *supply)?;
    *records = ahead;
    Some(next)
}

// Takes the records of the next supply. None where there is none.
pub(crate) fn next_stretch(
    alloc: Global,
    records: &mut Records,
) -> Result<Option<Vec<HourRecord>>, AllocError>
    ensures stretch { IfOk result (λ next. (rs : List Record) → Lines rs records.old.rest.now → every_record can_bear rs ≡ true → MatchOption next (rs ≡ []) (λ stretch. (others : List Record) × Stretch rs (map record_of stretch.items) others × Lines others records.new.rest.now × (every_record can_bear others ≡ true))) }
    ensures shorter { IfOk result (λ next. IfSome next (λ _. length records.new.rest.now < length records.old.rest.now)) }
{
    let Some(first) = records.next() else {
        return Ok(None);
    };
    let mut stretch = vec![in alloc; first]?;
    while let Some(next) = take_next(records, &first.at.supply) {
        stretch.push(next)?;
    }
    Ok(Some(stretch))
}
