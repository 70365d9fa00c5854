// What an F5D file says, supply by supply, for the field engineer.
//
// A file on standard input is answered, for each supply in file order, by a line of its hours, their energy and
// how many of them each method has, and by a picture of each clock day that has records. A file that is not
// accepted is answered by the refusal alone.
#![tactic(auto)]

mod days;
mod report;
mod stretch;

use f5d::{Records, check_file};
use report::write_supply;
use std::io::Read;
use stretch::next_stretch;

// Reports supply after supply of a file that was checked.
fn report_all(rt: &HostRuntime, file: &[u8]) -> anyhow::Result<()> {
    let mut out = String::new(rt.alloc());
    let mut records = Records::new(file);
    while let Some(stretch) = next_stretch(rt.alloc(), &mut records)? {
        write_supply(&mut out, &stretch)?;
        rt.print(out.as_str())?;
        out.clear();
    }
    Ok(())
}

fn main(rt: HostRuntime) -> anyhow::Result<()> {
    let mut file = Vec::new(rt.alloc());
    rt.stdin().read_to_end(&mut file)?;
    match check_file(&file) {
        Ok(_) => report_all(&rt, &file),
        Err(refusal) => Ok(println!(rt; "{refusal}")?),
    }
}
