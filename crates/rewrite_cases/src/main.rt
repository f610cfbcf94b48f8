// Rewrites each of the texts that cases.txt names, and says of each whether the answer is the one that is due.
#![tactic(auto)]

use rewriting::rewrite;
use script_reader::LONGEST;
use std::fs;

/// The answer that is due: the file NAME.refused where there is one, or else the text itself.
fn due(rt: &HostRuntime, name: &str, text: &[u8]) -> anyhow::Result<Vec<u8>> {
    let path = format!(in rt.alloc(); "{name}.refused")?;
    match fs::read(rt, &path) {
        Ok(line) => Ok(line),
        Err(_) => Ok(text.to_vec(rt.alloc())?),
    }
}

fn check_case(rt: &HostRuntime, name: &str) -> anyhow::Result<bool> {
    let heap = rt.alloc();
    let path = format!(in heap; "{name}.script")?;
    let text = fs::read(rt, &path)?;
    let expected = due(rt, name, &text)?;
    let mut buffer = vec![in heap; 0u8; LONGEST]?;
    let Ok(count) = rewrite(heap, &text, &mut buffer) else {
        return Ok(false);
    };
    buffer.truncate(count);
    Ok(buffer == expected)
}

fn main(rt: HostRuntime) -> anyhow::Result<()> {
    let names = fs::read_to_string(&rt, "cases.txt")?;
    for name in names.lines() {
        if check_case(&rt, name)? {
            println!(rt; "{name}: as it should be")?;
        } else {
            println!(rt; "{name}: DIFFERS")?;
        }
    }
    Ok(())
}
