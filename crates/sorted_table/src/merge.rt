// Putting a run among entries in order. A run is gone through twice: once to see that it ascends and
// how many places it wants, and once to put it; so the entries behind it move once.
ghost use Rattle.std.specs.Prelude.{◌≡◌, ◌-◌, ◌≤◌, length, take, drop};
ghost use Rattle.sorted_table.specs.Entries.{Rising};
ghost use Rattle.sorted_table.specs.Merged.{Counted, merged, Planned};

use crate::key::Key;
use crate::place::Place;
use crate::run::Run;
use crate::search::{lower_bound, order_at};
use std::cmp::Ordering;

// Why a run was not put.
#[derive(Clone, Copy, Debug, PartialEq, Eq)]
pub enum RunRefused {
    NotAscending,
    TooFewPlaces,
}

// How many keys of a run the entries lack; refused where the run does not ascend, and else where
// there are fewer free places.
fn count_new<K: Key, V: Copy, R: Run<K, V>>(
    entries: &[Place<K, V>],
    free: usize,
    mut run: R,
) -> Result<usize, RunRefused>
    ensures { Counted K.order entries.now free (R.items run) result }
{
    let Some(mut coming) = run.next() else {
        return Ok(0);
    };
    let mut at = 0;
    // The free places that are left; none once there were too few.
    let mut left = Some(free);
    loop {
        match order_at(entries, at, &coming.key) {
            Ordering::Less => {
                at += 1;
                continue;
            }
            Ordering::Equal => at += 1,
            Ordering::Greater => left = left.and_then(|count| count.checked_sub(1)),
        }
        let Some(after) = run.next() else {
            let left = left.ok_or(RunRefused::TooFewPlaces)?;
            return Ok(free - left);
        };
        if coming.key.compare(&after.key).is_ge() {
            return Err(RunRefused::NotAscending);
        }
        coming = after;
    }
}

// Merges a run with the entries that lie behind `gap` free places; there are as many free places as
// the run has keys that the entries lack.
#[tactic(auto, using(crate::proofs::Passes::in_area))]
fn merge<K: Key, V: Copy, R: Run<K, V>>(area: &mut [Place<K, V>], gap: usize, mut run: R)
    requires within { gap ≤ length area.old }
    requires fits { length (merged K.order (drop gap area.old) (R.items run)) ≡ length area.old }
    ensures { area.new ≡ merged K.order (drop gap area.old) (R.items run) }
{
    let Some(mut coming) = run.next() else {
        return;
    };
    let mut write = 0;
    let mut read = gap;
    loop {
        match order_at(area, read, &coming.key) {
            Ordering::Less => {
                area[write] = area[read];
                read += 1;
                write += 1;
                continue;
            }
            Ordering::Equal => read += 1,
            Ordering::Greater => {}
        }
        area[write] = coming;
        write += 1;
        let Some(after) = run.next() else {
            return;
        };
        coming = after;
    }
}

// Moves the entries in front of `gap` free places behind them.
fn open_gap<K: Copy, V: Copy>(area: &mut [Place<K, V>], gap: usize)
    requires { gap ≤ length area.old }
    ensures { drop gap area.new ≡ take (length area.old - gap) area.old }
{
    if gap > 0 {
        let count = area.len() - gap;
        area.copy_within(..count, gap);
    }
}

// Puts a run among the entries in front of `new` free places, as many as the run has new keys.
pub(crate) fn put_among<K: Key, V: Copy, R: Run<K, V>>(area: &mut [Place<K, V>], new: usize, run: R)
    requires within { new ≤ length area.old }
    requires fits { length (merged K.order (take (length area.old - new) area.old) (R.items run)) ≡ length area.old }
    ensures { area.new ≡ merged K.order (take (length area.old - new) area.old) (R.items run) }
{
    open_gap(area, new);
    merge(area, new, run);
}

// Where a run begins among entries in order, and how many of the free places behind them it wants.
pub(crate) fn plan<K: Key, V: Copy, R: Run<K, V>>(
    entries: &[Place<K, V>],
    free: usize,
    run: R,
) -> Result<(usize, usize), RunRefused>
    requires { Rising K.before entries.now }
    ensures { Planned K.order entries.now free (R.items run) result }
{
    let mut rest = run;
    let Some(first) = rest.next() else {
        return Ok((entries.len(), 0));
    };
    let from = lower_bound(entries, &first.key);
    let new = count_new(&entries[from..], free, run)?;
    Ok((from, new))
}
