// From line to line.
ghost use Rattle.std.specs.Prelude.{◌≡◌, ◌+◌, ◌≤◌, length, Err, MatchResult};
ghost use Rattle.script.specs.Fields.{field};
ghost use Rattle.script.specs.Reading.{due, shaped};
ghost use Rattle.script.specs.Tables.{parts, table};
ghost use Rattle.script_reader.specs.Places.{Opened, ended, first_row, rows_left};
ghost use Rattle.std.specs.Str.{bytes_eq};

use super::Reader;
use crate::line::Line;
use crate::parts::{count_parts, first_part, split_once};
use script::Refusal;
use std::alloc::Global;

/// Whether the line begins with the word and has the number of fields.
fn has_shape(line: &[u8], word: &[u8], count: usize) -> bool
    ensures { result ≡ shaped word.now count (parts 9 line.now) }
{
    first_part(line, b'\t') == word && count_parts(line, b'\t') == count
}

impl<'a> Reader<'a> {
    /// A reader before the first line.
    pub(crate) fn new(heap: Global, text: &'a [u8]) -> Reader<'a>
        requires { length text.now ≤ 4096 }
        ensures rows { rows_left result ≡ table text.now }
        ensures line { result.line ≡ 0 }
    {
        Reader {
            heap,
            rest: text,
            line: 0,
        }
    }

    /// Whether nothing is left.
    pub(crate) fn at_end(&self) -> bool
        ensures { result ≡ ended (rows_left self.now) }
    {
        self.rest.is_empty()
    }

    /// Whether the next line begins with the word.
    pub(crate) fn begins(&self, word: &[u8]) -> bool
        ensures { result ≡ bytes_eq (field 0 (first_row self.now)) word.now }
    {
        first_part(first_part(self.rest, b'\n'), b'\t') == word
    }

    /// The next line behind its word; it is to have its line feed, the word and the number of fields.
    pub(crate) fn next_line(&mut self, word: &[u8], count: usize) -> Result<Line<'a>, Refusal>
        ensures { MatchResult result (λ line. Opened word.now count self.old self.new line) (λ q. due (self.old.line + 1) word.now count (rows_left self.old) ≡ Err q) }
    {
        let number = self.line + 1;
        let Some((text, rest)) = split_once(self.rest, b'\n') else {
            return Err(Refusal::Shape(number));
        };
        if !has_shape(text, word, count) {
            return Err(Refusal::Shape(number));
        }
        self.rest = rest;
        self.line = number;
        let mut line = Line::new(text, number);
        line.field();
        Ok(line)
    }
}
