use crate::{Even, History, Interrupted, LastYear, Profile, Published, Span, Spans};
use official_time::Hour;
use sorted_table::Place;
use std::test::Fail;
use vocabulary::Wh;

fn hour(number: u32) -> Result<Hour, Fail> {
    Hour::new(number).ok_or_else(|| Fail::new("no such hour"))
}

#[test]
fn a_published_table_has_weights_from_its_first_hour_on(rt: HostRuntime) -> Result<(), Fail> {
    let weights = [5, 0, 1_000_000];
    let table = Published::new(Published::check(100, &weights)?, &weights);
    for (number, weight) in [
        (99, None),
        (100, Some(5)),
        (101, Some(0)),
        (102, Some(1_000_000)),
        (103, None),
    ] {
        assert_eq!(rt; table.weight(hour(number)?), weight);
    }
    assert!(rt; Published::check(0, &weights).is_err());
    assert!(rt; Published::check(876_600, &weights).is_err());
    assert!(rt; Published::check(100, &[1_000_001]).is_err());
    Ok(())
}

#[test]
fn last_year_is_52_weeks_before(rt: HostRuntime) -> Result<(), Fail> {
    let first = Place {
        key: hour(1)?,
        value: Wh(500),
    };
    let second = Place {
        key: hour(2)?,
        value: Wh(2_000_000),
    };
    let entries = [first, second];
    let profile = LastYear::new(History::check(&entries)?);
    for (number, weight) in [
        (8736, None),
        (8737, Some(500)),
        (8738, Some(1_000_000)),
        (8739, None),
    ] {
        assert_eq!(rt; profile.weight(hour(number)?), weight);
    }
    assert!(rt; History::check(&[second, first]).is_err());
    assert!(rt; History::check(&[first, first]).is_err());
    Ok(())
}

#[test]
fn interruptions_weigh_nothing(rt: HostRuntime) -> Result<(), Fail> {
    let spans = [Span::check(10, 12)?, Span::check(20, 20)?];
    let weights = [7];
    let even = Interrupted::new(Even, Spans::check(&spans)?);
    for (number, weight) in [(9, 1), (10, 0), (12, 0), (13, 1), (20, 0), (21, 1)] {
        assert_eq!(rt; even.weight(hour(number)?), Some(weight));
    }
    let table = Published::new(Published::check(12, &weights)?, &weights);
    let twice = Interrupted::new(
        Interrupted::new(table, Spans::check(&spans)?),
        Spans::check(&[])?,
    );
    assert_eq!(rt; twice.weight(hour(12)?), Some(0));
    assert_eq!(rt; twice.weight(hour(11)?), None);
    assert!(rt; Span::check(5, 4).is_err());
    assert!(rt; Spans::check(&[Span::check(1, 1)?; 65]).is_err());
    Ok(())
}
