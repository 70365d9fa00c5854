// The hours of clock days with their labels and tariff periods, for dates on standard input.
//
// Arguments are holidays as day numbers. Each line of input is answered by the lines of its hours, or
// by the refusal of a date that is none.
#![tactic(auto)]

ghost use Rattle.std.specs.Prelude.{◌≡◌, ◌≤◌, IfOk, IfErr, vec_len};
ghost use Rattle.vocabulary.specs.Refusals.{notice, plain};

mod lines;
mod report;

use lines::Lines;
use official_time::Day;
use report::answer;
use std::env;
use std::io::Read;
use tariff::{Calendar20Td, Holidays};
use vocabulary::Refusal;

// The day of a number in decimal; refused with 16 where no day has it.
fn holiday(word: &str) -> Result<Day, Refusal>
    ensures { IfErr result (λ e. notice e ≡ plain 16) }
{
    let number = word.parse().map_err(|_| Refusal::NoSuchDate)?;
    Day::new(number).ok_or(Refusal::NoSuchDate)
}

// The holidays among the arguments. One that is no day, or a 17th, is told and left out.
fn read_holidays(rt: &HostRuntime) -> anyhow::Result<Vec<Day>>
    ensures { IfOk result (λ days. vec_len days ≤ 16) }
{
    let mut days = Vec::new(rt.alloc());
    for word in env::args(rt)?.skip(1) {
        match holiday(word.as_str()) {
            Ok(day) => days.push(day)?,
            Err(refusal) => println!(rt; "{refusal}")?,
        }
        if let Err(refusal) = Holidays::check(&days) {
            println!(rt; "{refusal}")?;
            let _ = days.pop();
        }
    }
    Ok(days)
}

// Answers each line of the input, with or without a line break at its end.
fn answer_all(rt: &HostRuntime, td: &Calendar20Td, input: &[u8]) -> anyhow::Result<()> {
    let mut out = String::new(rt.alloc());
    for line in Lines::new(input) {
        answer(&mut out, td, line)?;
        rt.print(out.as_str())?;
        out.clear();
    }
    Ok(())
}

fn main(rt: HostRuntime) -> anyhow::Result<()> {
    let days = read_holidays(&rt)?;
    let td = Calendar20Td::new(Holidays::check(&days)?);
    let mut input = Vec::new(rt.alloc());
    rt.stdin().read_to_end(&mut input)?;
    answer_all(&rt, &td, &input)
}
