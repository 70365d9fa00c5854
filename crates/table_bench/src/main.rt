// Workloads on the sorted table, for the benchmark in bench/table, which runs this program beside its own map.
//
//     table_bench WORKLOAD SUPPLIES
//
// fills a table with 720 hours of each supply and writes the microseconds that it took, the number of entries and
// the sum of their energies. In the gate the time is left out: `table_bench WORKLOAD SUPPLIES untimed`.
#![tactic(auto)]

use anyhow::anyhow;
use f5d::SupplyHour;
use official_time::Hour;
use sorted_table::{Place, Slice, SortedTable, find_in};
use std::alloc::Global;
use std::env;
use std::time::Instant;
use vocabulary::{SupplyCode, Wh};

const HOURS: u32 = 720;

type Entry = Place<SupplyHour, Wh>;

// What is measured, and in which order the entries come.
#[derive(Clone, Copy)]
enum Workload {
    InOrder,
    OneRun,
    Runs,
    Interleaved,
    Find,
}

impl Workload {
    // A word that is none of the others stands for interleaved supplies.
    fn of(word: &str) -> Workload {
        match word {
            "in-order" => Workload::InOrder,
            "one-run" => Workload::OneRun,
            "runs" => Workload::Runs,
            "find" => Workload::Find,
            _ => Workload::Interleaved,
        }
    }

    fn entries(self, heap: Global, supplies: u32) -> anyhow::Result<Vec<Entry>> {
        match self {
            Workload::InOrder | Workload::OneRun => by_supply(heap, supplies, 1),
            Workload::Runs => by_supply(heap, supplies, 617),
            Workload::Interleaved | Workload::Find => by_hour(heap, supplies),
        }
    }
}

// The code's digits are put into an array, since a text on the heap would cost more than all else here.
fn entry(supply: u32, hour: u32) -> anyhow::Result<Entry> {
    let mut code = *b"ES0000000000000000TR0F";
    let mut rest = supply;
    for digit in code[8..18].iter_mut().rev() {
        *digit = b'0' + (rest % 10) as u8;
        rest /= 10;
    }
    let supply_code = SupplyCode::try_from(code.as_slice())?;
    let Some(end) = Hour::new(hour) else {
        return Err(anyhow!("no such hour"));
    };
    let key = SupplyHour {
        supply: supply_code,
        hour: end,
    };
    let value = Wh(u64::from(supply ^ hour));
    Ok(Place { key, value })
}

// Supply after supply: in key order, or in steps of 617 round all supplies.
fn by_supply(heap: Global, supplies: u32, step: u32) -> anyhow::Result<Vec<Entry>> {
    let mut entries = Vec::new(heap);
    let mut supply: u32 = 0;
    for _ in 0..supplies {
        for hour in 1..=HOURS {
            entries.push(entry(supply, hour)?)?;
        }
        supply = supply.wrapping_add(step) % supplies;
    }
    Ok(entries)
}

// Hour after hour, each of all supplies.
fn by_hour(heap: Global, supplies: u32) -> anyhow::Result<Vec<Entry>> {
    let mut entries = Vec::new(heap);
    for hour in 1..=HOURS {
        for supply in 0..supplies {
            entries.push(entry(supply, hour)?)?;
        }
    }
    Ok(entries)
}

fn put_each(table: &mut SortedTable<SupplyHour, Wh>, entries: &[Entry]) -> anyhow::Result<()> {
    for entry in entries {
        table.put(entry.key, entry.value)?;
    }
    Ok(())
}

fn put_runs(
    table: &mut SortedTable<SupplyHour, Wh>,
    entries: &[Entry],
    size: usize,
) -> anyhow::Result<()> {
    for run in entries.chunks(size.max(1)) {
        table
            .put_run(Slice::new(run))
            .map_err(|_| anyhow!("a run was refused"))?;
    }
    Ok(())
}

fn find_each(entries: &[Entry], wanted: &[Entry]) -> u64 {
    let mut sum: u64 = 0;
    for entry in wanted {
        if let Some(found) = find_in(entries, &entry.key) {
            sum = sum.wrapping_add(found.0);
        }
    }
    sum
}

fn sum_of(entries: &[Entry]) -> u64 {
    let mut sum: u64 = 0;
    for entry in entries {
        sum = sum.wrapping_add(entry.value.0);
    }
    sum
}

fn filled(
    table: &mut SortedTable<SupplyHour, Wh>,
    workload: Workload,
    entries: &[Entry],
) -> anyhow::Result<()> {
    match workload {
        Workload::OneRun => put_runs(table, entries, entries.len()),
        Workload::Runs => put_runs(table, entries, HOURS as usize),
        _ => put_each(table, entries),
    }
}

// Fills a table, or finds all its entries, and writes what came of it.
fn run(rt: &HostRuntime, workload: Workload, supplies: u32, timed: bool) -> anyhow::Result<()> {
    let heap = rt.alloc();
    let entries = workload.entries(heap, supplies)?;
    let mut places = by_supply(heap, supplies, 1)?;
    let start = Instant::now(rt)?;
    let (count, sum) = match workload {
        Workload::Find => (places.len(), find_each(&places, &entries)),
        _ => {
            let mut table = SortedTable::new(&mut places);
            filled(&mut table, workload, &entries)?;
            (table.len(), sum_of(table.entries()))
        }
    };
    let time = start.elapsed(rt)?;
    if timed {
        let micros = time.as_micros();
        println!(rt; "{micros}")?;
    }
    println!(rt; "{count} {sum}")?;
    Ok(())
}

fn main(rt: HostRuntime) -> anyhow::Result<()> {
    let mut words = env::args(&rt)?.skip(1);
    let Some(name) = words.next() else {
        return Ok(());
    };
    let supplies = match words.next() {
        Some(word) => word.as_str().parse::<u32>()?,
        None => 1,
    };
    let timed = words.next().is_none();
    run(&rt, Workload::of(name.as_str()), supplies.max(1), timed)
}
