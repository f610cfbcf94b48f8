// A place in a script text.
ghost use Rattle.std.specs.Prelude.{◌+◌, ◌≤◌, length};

use std::alloc::Global;

mod lines;

/// A text of at most 4,096 bytes, read forward line by line.
#[derive(Drop)]
pub(crate) struct Reader<'a> {
    /// Where what is read is kept.
    pub(crate) heap: Global,
    /// What stands behind the lines that were read.
    rest: &'a [u8],
    /// How many lines that were.
    line: u16,
    ghost short: { line + length rest.now ≤ 4096 },
}
