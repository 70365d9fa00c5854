// Entries that come one after the other.
ghost use Rattle.std.specs.Prelude.{◌≡◌, List, [], ◌∷◌, MatchOption};
ghost use Rattle.std.specs.Option.{option_to_list};
ghost use Rattle.sorted_table.specs.declared.place.Place.{Place};

use crate::place::Place;

// Entries handed out one after the other. A copy hands out what was still to come when it was made.
pub trait Run<K, V>: Copy {
    ghost items: { Self → List (Place K V) };

    fn next(&mut self) -> Option<Place<K, V>>
        ensures { MatchOption result ((items self.old ≡ []) × (items self.new ≡ [])) (λ entry. items self.old ≡ entry ∷ items self.new) };
}

// One entry, or none.
impl<K: Copy, V: Copy> Run<K, V> for Option<Place<K, V>> {
    ghost items = { option_to_list };

    fn next(&mut self) -> Option<Place<K, V>> {
        self.take()
    }
}

// The entries of a slice.
#[derive(Clone, Copy)]
pub struct Slice<'a, K, V> {
    entries: &'a [Place<K, V>],
}

impl<'a, K, V> Slice<'a, K, V> {
    pub fn new(entries: &'a [Place<K, V>]) -> Slice<'a, K, V>
        ensures { result.entries.now ≡ entries.now }
    {
        Slice { entries }
    }
}

impl<K: Copy, V: Copy> Run<K, V> for Slice<'_, K, V> {
    ghost items = { λ s. s.entries.now };

    fn next(&mut self) -> Option<Place<K, V>> {
        let (first, rest) = self.entries.split_first()?;
        self.entries = rest;
        Some(*first)
    }
}
