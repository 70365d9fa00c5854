// The table over the places that it is lent.
ghost use Rattle.std.specs.Prelude.{◌≤◌, length, take};
ghost use Rattle.std.specs.List.Sorted.{IsStrictlySortedBy, IsStrictlySortedBy-prop};
ghost use Rattle.sorted_table.specs.Orders.{compared};

use crate::key::Key;
use crate::merge::{RunRefused, plan, put_among};
use crate::place::Place;
use crate::run::Run;
use crate::search::find_in;
use vocabulary::Refusal;

// Entries in key order, no key twice. They stand in the first places; the others are free.
#[derive(Drop)]
pub struct SortedTable<'a, K: Key, V> {
    places: &'a mut [Place<K, V>],
    used: usize,
    ghost within: { used ≤ length places.now },
    ghost ordered: { IsStrictlySortedBy (λ x y. compared K.order x.key y.key) (take used places.now) } by { IsStrictlySortedBy-prop (λ x y. compared K.order x.key y.key) (take used places.now) },
}

impl<'a, K: Key, V: Copy> SortedTable<'a, K, V> {
    ghost use Rattle.std.specs.Prelude.{◌≡◌, false, [], length, MatchBool, MatchOption, OnErr};
    ghost use Rattle.sorted_table.specs.Entries.{entry, Lacks, OnePut, Rising, RunPut};
    ghost use Rattle.sorted_table.specs.Tables.{entries_of, room_of, Unchanged};
    ghost use Rattle.std.specs.List.{Contains};

    // An empty table. What stands in the places is forgotten.
    pub fn new(places: &'a mut [Place<K, V>]) -> SortedTable<'a, K, V>
        ensures empty { entries_of result ≡ [] }
        ensures room { room_of result ≡ length places.old }
    {
        SortedTable { places, used: 0 }
    }

    // The number of entries.
    pub fn len(&self) -> usize
        ensures value { result ≡ length (entries_of self.now) }
    {
        self.entries().len()
    }

    // The entries in order.
    pub fn entries(&self) -> &[Place<K, V>]
        ensures value { result.now ≡ entries_of self.now }
        ensures ordered { Rising K.before result.now }
    {
        &self.places[..self.used]
    }

    // The value under a key, if there is one.
    pub fn get(&self, key: &K) -> Option<&V>
        ensures { MatchOption result (Lacks (entries_of self.now) key.now) (λ value. Contains (entries_of self.now) (entry key.now value.now)) }
    {
        find_in(self.entries(), key)
    }

    // The value under a key, as `true` and in `into`; `false` where there is none, and `into` is as
    // it was.
    pub fn find(&self, key: &K, into: &mut V) -> bool
        ensures found { MatchBool result (Contains (entries_of self.now) (entry key.now into.new)) (Lacks (entries_of self.now) key.now) }
        ensures same { result ≡ false → into.new ≡ into.old }
    {
        match self.get(key) {
            Some(value) => {
                *into = *value;
                true
            }
            None => false,
        }
    }

    // Puts a value under a key, over the one that is there. Refused with 35, and the table is as it
    // was, where the key is new and every place is taken.
    pub fn put(&mut self, key: K, value: V) -> Result<(), Refusal>
        ensures put { OnePut K.before result (room_of self.old) (entries_of self.old) key value (entries_of self.new) }
        ensures same { OnErr result (Unchanged self.old self.new) }
        ensures room { room_of self.new ≡ room_of self.old }
    {
        self.put_run(Some(Place { key, value }))
            .map_err(|_| Refusal::TooFewPlaces)
    }

    // Puts the entries of an ascending run one by one, at the cost of the run and of the entries
    // behind its first key. Where it is refused the table is as it was.
    pub fn put_run<R: Run<K, V>>(&mut self, run: R) -> Result<(), RunRefused>
        ensures put { RunPut K.before result (room_of self.old) (entries_of self.old) (R.items run) (entries_of self.new) }
        ensures same { OnErr result (Unchanged self.old self.new) }
        ensures room { room_of self.new ≡ room_of self.old }
    {
        let free = self.places.len() - self.used;
        let (from, new) = plan(self.entries(), free, run)?;
        let used = self.used + new;
        put_among(&mut self.places[from..used], new, run);
        self.used = used;
        Ok(())
    }
}
