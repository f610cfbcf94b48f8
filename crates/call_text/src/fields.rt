// The fields of a line, and the numbers in them.
ghost use Rattle.std.specs.Prelude.{◌≡◌, decimal, map, IfOk};
ghost use Rattle.call_lines.specs.Ranges.{IsShort, IsSlot, IsStoreNumber};
ghost use Rattle.call_text.specs.Reading.{Reads};
ghost use Rattle.script.specs.Tables.{parts};

use std::alloc::{AllocError, Global};
use std::str;

pub(super) fn fields_of(heap: Global, line: &[u8]) -> Result<Vec<&[u8]>, AllocError>
    ensures { IfOk result (λ fields. map (λ f. f.now) fields.items ≡ parts 9 line.now) }
{
    line.split(|b| *b == b'\t').collect(heap)
}

/// A number of a store.
pub(super) fn store_number(field: &[u8]) -> Option<u32>
    ensures { Reads decimal IsStoreNumber field.now result }
{
    str::from_utf8(field).ok()?.parse().ok()
}

/// Any number but a slot or the number of a store.
pub(super) fn short(field: &[u8]) -> Option<u16>
    ensures { Reads decimal IsShort field.now result }
{
    u16::try_from(store_number(field)?).ok()
}

pub(super) fn slot(field: &[u8]) -> Option<u8>
    ensures { Reads decimal IsSlot field.now result }
{
    u8::try_from(store_number(field)?).ok()
}
