// Reads a text of calls from standard input, carries them out on a store, and answers each line by a line.
#![tactic(auto)]

mod printing;

use printing::{LONGEST, print};
use std::io::{Read, Write};

fn main(rt: HostRuntime) -> anyhow::Result<()> {
    let heap = rt.alloc();
    let mut text = Vec::new(heap);
    // one byte more than a text may have shows that it is too long
    rt.stdin().take(LONGEST as u64 + 1).read_to_end(&mut text)?;
    rt.stdout().write_all(&print(heap, &text)?)?;
    Ok(())
}
