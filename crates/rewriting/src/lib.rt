// A text that is read and written back.
#![tactic(auto)]

ghost use Rattle.script.specs.Reading.{reading};
ghost use Rattle.script.specs.Refusals.{refusal_row};
ghost use Rattle.script.specs.Tables.{line};
ghost use Rattle.script_writer.specs.Buffers.{Written};
ghost use Rattle.rewriting.specs.Rewriting.{Kept, rewritten};

use script::{ReadError, Refusal};
use script_reader::parse;
use script_writer::{WriteError, copy_whole, write};
use std::alloc::Global;

/// Writes the line of a refusal into the buffer.
fn write_refusal(heap: Global, refusal: Refusal, buffer: &mut [u8]) -> Result<usize, WriteError>
    ensures { Written (line (refusal_row refusal)) buffer.old buffer.new result }
{
    let line = format!(in heap; "{refusal}\n")?;
    copy_whole(line.as_bytes(), buffer)
}

/// Writes the script of the text back into the buffer, or the line that says why the text is refused.
pub fn rewrite(heap: Global, bytes: &[u8], buffer: &mut [u8]) -> Result<usize, WriteError>
    ensures answer { Written (rewritten (reading bytes.now)) buffer.old buffer.new result }
    ensures kept { Kept bytes.now buffer.old buffer.new result }
{
    match parse(heap, bytes) {
        Ok(script) => write(&script, heap, buffer),
        Err(ReadError::Refused(refusal)) => write_refusal(heap, refusal, buffer),
        Err(ReadError::Memory) => Err(WriteError::Memory),
    }
}
