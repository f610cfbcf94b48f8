// Reads a script text from standard input and writes it back, or the line that says why it is refused.
#![tactic(auto)]

use rewriting::rewrite;
use script_reader::LONGEST;
use std::io::{Read, Write};

fn main(rt: HostRuntime) -> anyhow::Result<()> {
    let heap = rt.alloc();
    let mut bytes = Vec::new(heap);
    // one byte more than a text may have shows that it is too long
    rt.stdin().take(LONGEST as u64 + 1).read_to_end(&mut bytes)?;
    let mut buffer = vec![in heap; 0u8; LONGEST]?;
    let count = rewrite(heap, &bytes, &mut buffer)?;
    buffer.truncate(count);
    rt.stdout().write_all(&buffer)?;
    Ok(())
}
