// Finding a key among entries in order.
ghost use Rattle.std.specs.Prelude.{◌≡◌, ◌<◌, ◌≤◌, ⊤, length, drop, MatchOption};
ghost use Rattle.sorted_table.specs.Entries.{entry, Lacks, Rising};
ghost use Rattle.sorted_table.specs.Searched.{Stands};
ghost use Rattle.sorted_table.specs.Orders.{compared};
ghost use Rattle.std.specs.Ordering.{is_lt, MatchOrdering};
ghost use Rattle.std.specs.List.Sorted.{IsPartitionPoint};
ghost use Rattle.std.specs.List.{Contains};

use crate::key::Key;
use crate::place::Place;
use std::cmp::Ordering;

// How the entry at a place stands to a key; where no entry is left, the key comes first.
pub(crate) fn order_at<K: Key, V>(entries: &[Place<K, V>], at: usize, key: &K) -> Ordering
    ensures stands { Stands K.before (drop at entries.now) key.now result }
    ensures within { MatchOrdering result (at < length entries.now) (at < length entries.now) ⊤ }
{
    entries
        .get(at)
        .map_or(Ordering::Greater, |entry| entry.key.compare(key))
}

// Whether an entry's key is before a key.
fn is_before<K: Key, V>(entry: &Place<K, V>, key: &K) -> bool
    ensures { result ≡ is_lt (compared K.order entry.now.key key.now) }
{
    entry.key.compare(key).is_lt()
}

// The number of entries in order whose keys are before a key. The last is asked first, since most keys come in order.
pub(crate) fn lower_bound<K: Key, V>(entries: &[Place<K, V>], key: &K) -> usize
    requires { Rising K.before entries.now }
    ensures within { result ≤ length entries.now }
    ensures parted { IsPartitionPoint (λ x. K.before x.key key.now) (λ x. K.before x.key key.now → ⊥) entries.now result }
{
    match entries {
        [.., last] if is_before(last, key) => entries.len(),
        _ => entries.partition_point(|entry| is_before(entry, key)),
    }
}

// The value under a key among entries in order, if there is one.
pub fn find_in<'a, K: Key, V>(entries: &'a [Place<K, V>], key: &K) -> Option<&'a V>
    ensures { Rising K.before entries.now → MatchOption result (Lacks entries.now key.now) (λ value. Contains entries.now (entry key.now value.now)) }
{
    let at = entries
        .binary_search_by(|entry| entry.key.compare(key))
        .ok()?;
    Some(&entries[at].value)
}
