// A table of four places, keyed by small numbers.
ghost use Rattle.std.specs.Prelude.{◌<◌};
ghost use Rattle.sorted_table.specs.Orders.{by_number, turned};

use crate::key::Key;
use crate::merge::RunRefused;
use crate::place::Place;
use crate::run::Slice;
use crate::table::SortedTable;
use std::cmp::Ordering;
use std::test::Fail;

#[derive(Clone, Copy, Debug, PartialEq, Eq, PartialOrd, Ord)]
struct Small {
    number: u32,
}

impl Key for Small {
    ghost before = { λ a b. a.number < b.number };

    ghost order = { by_number (λ s. s.number) (λ a b e i. record { number = e i }) };

    fn compare(&self, other: &Self) -> Ordering {
        self.cmp(other)
    }
}

// The latest comes first, and no other comparison is known.
#[derive(Clone, Copy)]
struct Late {
    number: u32,
}

impl Key for Late {
    ghost before = { λ a b. b.number < a.number };

    ghost order = { turned (by_number (λ s. s.number) (λ a b e i. record { number = e i })) };

    fn compare(&self, other: &Self) -> Ordering {
        other.number.cmp(&self.number)
    }
}

fn at(number: u32, value: u32) -> Place<Small, u32> {
    Place {
        key: Small { number },
        value,
    }
}

fn free() -> [Place<Small, u32>; 4] {
    [at(0, 0), at(0, 0), at(0, 0), at(0, 0)]
}

#[test]
fn puts_in_order(rt: HostRuntime) -> Result<(), Fail> {
    let mut places = free();
    let mut table = SortedTable::new(&mut places);
    table.put(Small { number: 2 }, 20)?;
    table.put(Small { number: 4 }, 40)?;
    assert_eq!(rt; table.len(), 2);
    assert_eq!(rt; table.entries(), [at(2, 20), at(4, 40)].as_slice());
    Ok(())
}

#[test]
fn puts_over_between_and_in_front(rt: HostRuntime) -> Result<(), Fail> {
    let mut places = free();
    let mut table = SortedTable::new(&mut places);
    table.put(Small { number: 2 }, 20)?;
    table.put(Small { number: 4 }, 40)?;
    table.put(Small { number: 3 }, 30)?;
    table.put(Small { number: 2 }, 21)?;
    table.put(Small { number: 1 }, 10)?;
    assert_eq!(rt;
        table.entries(),
        [at(1, 10), at(2, 21), at(3, 30), at(4, 40)].as_slice()
    );
    Ok(())
}

#[test]
fn refuses_a_new_key_when_full(rt: HostRuntime) -> Result<(), Fail> {
    let mut places = free();
    let mut table = SortedTable::new(&mut places);
    table.put_run(Slice::new(&[at(1, 10), at(2, 20), at(3, 30), at(4, 40)]))?;
    assert!(rt; table.put(Small { number: 5 }, 50).is_err());
    assert!(rt; table.put(Small { number: 4 }, 41).is_ok());
    assert_eq!(rt;
        table.entries(),
        [at(1, 10), at(2, 20), at(3, 30), at(4, 41)].as_slice()
    );
    Ok(())
}

#[test]
fn finds_what_is_there(rt: HostRuntime) -> Result<(), Fail> {
    let mut places = free();
    let mut table = SortedTable::new(&mut places);
    table.put_run(Slice::new(&[at(1, 10), at(3, 30), at(5, 50)]))?;
    let mut into = 7;
    assert!(rt; !table.find(&Small { number: 0 }, &mut into));
    assert!(rt; !table.find(&Small { number: 4 }, &mut into));
    assert!(rt; !table.find(&Small { number: 6 }, &mut into));
    assert_eq!(rt; into, 7);
    assert!(rt; table.find(&Small { number: 5 }, &mut into));
    assert_eq!(rt; into, 50);
    assert!(rt; table.find(&Small { number: 1 }, &mut into));
    assert_eq!(rt; into, 10);
    Ok(())
}

#[test]
fn a_run_interleaves_replaces_and_appends(rt: HostRuntime) -> Result<(), Fail> {
    let mut places = free();
    let mut table = SortedTable::new(&mut places);
    table.put_run(Slice::new(&[at(1, 10), at(3, 30)]))?;
    table.put_run(Slice::new(&[at(2, 20), at(3, 31), at(4, 40)]))?;
    assert_eq!(rt;
        table.entries(),
        [at(1, 10), at(2, 20), at(3, 31), at(4, 40)].as_slice()
    );
    Ok(())
}

#[test]
fn a_run_has_to_ascend(rt: HostRuntime) -> Result<(), Fail> {
    let mut places = free();
    let mut table = SortedTable::new(&mut places);
    table.put(Small { number: 2 }, 20)?;
    assert_eq!(rt;
        table.put_run(Slice::new(&[at(1, 10), at(1, 11)])),
        Err(RunRefused::NotAscending)
    );
    assert_eq!(rt; table.entries(), [at(2, 20)].as_slice());
    Ok(())
}

#[test]
fn a_run_that_does_not_fit_changes_nothing(rt: HostRuntime) -> Result<(), Fail> {
    let mut places = free();
    let mut table = SortedTable::new(&mut places);
    table.put_run(Slice::new(&[at(2, 20), at(4, 40), at(6, 60)]))?;
    let refused = table.put_run(Slice::new(&[at(2, 21), at(3, 30), at(5, 50)]));
    assert_eq!(rt; refused, Err(RunRefused::TooFewPlaces));
    assert_eq!(rt;
        table.entries(),
        [at(2, 20), at(4, 40), at(6, 60)].as_slice()
    );
    Ok(())
}

#[test]
fn gets_what_is_there(rt: HostRuntime) -> Result<(), Fail> {
    let mut places = free();
    let mut table = SortedTable::new(&mut places);
    table.put_run(Slice::new(&[at(1, 10), at(3, 30), at(5, 50)]))?;
    assert_eq!(rt; table.get(&Small { number: 4 }), None);
    assert_eq!(rt; table.get(&Small { number: 3 }), Some(&30));
    Ok(())
}

#[test]
fn a_key_tells_its_order_alone(rt: HostRuntime) -> Result<(), Fail> {
    let none = Place {
        key: Late { number: 0 },
        value: 0,
    };
    let mut places = [none, none];
    let mut table = SortedTable::new(&mut places);
    table.put(Late { number: 1 }, 10)?;
    table.put(Late { number: 2 }, 20)?;
    assert_eq!(rt; table.entries()[0].value, 20);
    assert_eq!(rt; table.get(&Late { number: 1 }), Some(&10));
    Ok(())
}
