// Files and names, one to a line of standard input, each answered by a line.
//
// A line with `_` is a file's name. Its answer is that name, and whether it comes next after the last one that was
// read; or the refusal. Any other line is a file, where `|` stands for the byte that ends a line of it. Its answer is
// the count of its records, with the number of each hour and its energy, and whether these records write the file
// again; or the refusal.
#![tactic(auto)]

use f5d::{FileName, Records, check_file};
use std::alloc::Global;

fn file_bytes(heap: Global, text: &str) -> anyhow::Result<Vec<u8>> {
    let mut bytes = Vec::new(heap);
    for byte in text.as_bytes() {
        bytes.push(if *byte == b'|' { b'\n' } else { *byte })?;
    }
    Ok(bytes)
}

fn answer_file(rt: &HostRuntime, bytes: &[u8]) -> anyhow::Result<()> {
    let count = match check_file(bytes) {
        Ok(count) => count,
        Err(refusal) => {
            println!(rt; "{refusal}")?;
            return Ok(());
        }
    };
    print!(rt; "{count}")?;
    let mut again = Vec::new(rt.alloc());
    for record in Records::new(bytes) {
        let hour = record.at.hour.number();
        let energy = record.billed.energy().0;
        print!(rt; " {hour} {energy}")?;
        let mut buffer = [0; 100];
        let length = record.write_line(&mut buffer)?;
        again.extend_from_slice(&buffer[..length])?;
    }
    let same = again.as_slice() == bytes;
    println!(rt; " {same}")?;
    Ok(())
}

// Gives the name, or the last one where the text is none.
fn answer_name(
    rt: &HostRuntime,
    text: &str,
    last: Option<FileName>,
) -> anyhow::Result<Option<FileName>> {
    let name = match FileName::try_from(text.as_bytes()) {
        Ok(name) => name,
        Err(refusal) => {
            println!(rt; "{refusal}")?;
            return Ok(last);
        }
    };
    let next = last.is_some_and(|last| name.comes_next(&last));
    println!(rt; "{name} {next}")?;
    Ok(Some(name))
}

fn main(rt: HostRuntime) -> anyhow::Result<()> {
    let mut last = None;
    for line in rt.lines(rt.alloc()) {
        let line = line?;
        let text = line.as_str();
        if text.contains('_') {
            last = answer_name(&rt, text, last)?;
        } else {
            let bytes = file_bytes(rt.alloc(), text)?;
            answer_file(&rt, &bytes)?;
        }
    }
    Ok(())
}
