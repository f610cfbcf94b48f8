// The whole of a text, or nothing of it.
ghost use Rattle.std.specs.Prelude.{◌≡◌};
ghost use Rattle.script_writer.specs.Buffers.{Copied, write_number};

use super::WriteError;

impl WriteError {
    /// The number by which the pages name the refusal; none for want of memory.
    pub fn number(self) -> Option<u8>
        ensures { result ≡ write_number self }
    {
        match self {
            WriteError::Short => Some(32),
            WriteError::Memory => None,
        }
    }
}

/// Copies the bytes to the front of the buffer and answers how many there are: the caller lends the buffer, and no
/// heap is asked for.
pub fn copy_whole(bytes: &[u8], buffer: &mut [u8]) -> Result<usize, WriteError>
    ensures { Copied bytes.now buffer.old buffer.new result }
{
    let count = bytes.len();
    if count > buffer.len() {
        return Err(WriteError::Short);
    }
    buffer[..count].copy_from_slice(bytes);
    Ok(count)
}
