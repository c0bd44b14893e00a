// Reads a record from standard input and prints its line.
#![tactic(auto)]

use report::line;
use std::io::Read;

// one byte more than the longest record has: what follows decides nothing
const ENOUGH: u64 = 1645;

fn main(rt: HostRuntime) -> anyhow::Result<()> {
    let mut bytes = Vec::new(rt.alloc());
    rt.stdin().take(ENOUGH).read_to_end(&mut bytes)?;
    let text = line(rt.alloc(), bytes.as_slice())?;
    rt.println(text)?;
    Ok(())
}
