// Reads a file of records, for the benchmark in bench/f5d, which runs this program beside a reader of its own.
//
//     f5d_bench < FILE
//
// checks the file whole, then goes through its records, and writes the microseconds that both took, the number of
// the records and the sum of their energies. In the gate the time is left out: `f5d_bench untimed < FILE`.
#![tactic(auto)]

use f5d::{Records, check_file};
use std::env;
use std::io::Read;
use std::time::Instant;

// The sum of the energies of the records.
fn sum_of(bytes: &[u8]) -> u64 {
    let mut sum: u64 = 0;
    for record in Records::new(bytes) {
        sum = sum.wrapping_add(record.billed.energy().0);
    }
    sum
}

fn main(rt: HostRuntime) -> anyhow::Result<()> {
    let timed = env::args(&rt)?.nth(1).is_none();
    let mut input = Vec::new(rt.alloc());
    rt.stdin().read_to_end(&mut input)?;
    let start = Instant::now(&rt)?;
    let count = check_file(&input)?;
    let sum = sum_of(&input);
    let time = start.elapsed(&rt)?;
    if timed {
        let micros = time.as_micros();
        println!(rt; "{micros}")?;
    }
    println!(rt; "{count} {sum}")?;
    Ok(())
}
