// Reading the lines of a text of calls.
ghost use Rattle.std.specs.Prelude.{◌≡◌, Some, IfSome, IfOk};
ghost use Rattle.call_lines.specs.Lines.{line_row, opening_row};
ghost use Rattle.call_lines.specs.Ranges.{LineFits, OpeningFits};
ghost use Rattle.call_text.specs.Texts.{Read, Says, Settled};

use crate::errors::TextError;
use crate::fields::fields_of;
use crate::parsing::{parse_line, parse_opening};
use crate::texts::CallText;
use call_lines::{Line, Opening};
use script_reader::split_once;
use std::alloc::{AllocError, Global};
use std::fmt;

/// The value, if the line is just what is written of it.
fn as_written<D: fmt::Display + Drop>(
    heap: Global,
    value: Option<D>,
    line: &[u8],
) -> Result<Option<D>, AllocError>
    ensures written { IfOk result (λ v. IfSome v (λ d. (value ≡ Some d) × IfSome (D.output d) (λ bytes. line.now ≡ bytes))) }
    ensures every { IfOk result (λ v. (d : D) → value ≡ Some d → D.output d ≡ Some line.now → v ≡ Some d) }
{
    let Some(value) = value else {
        return Ok(None);
    };
    let written = format!(in heap; "{value}")?;
    Ok((written.as_bytes() == line).then_some(value))
}

fn read_opening(heap: Global, line: &[u8]) -> Result<Option<Opening>, AllocError>
    ensures { IfOk result (λ opening. Says opening_row OpeningFits line.now opening) }
{
    let fields = fields_of(heap, line)?;
    as_written(heap, parse_opening(&fields), line)
}

fn read_line(heap: Global, line: &[u8]) -> Result<Option<Line>, AllocError>
    ensures { IfOk result (λ said. Says line_row LineFits line.now said) }
{
    let fields = fields_of(heap, line)?;
    as_written(heap, parse_line(&fields), line)
}

/// The opening, and then line by line.
fn read_lines(heap: Global, text: &[u8]) -> Result<CallText, TextError>
    ensures { Read text.now result }
{
    let Some((first, mut rest)) = split_once(text, b'\n') else {
        return Err(TextError::Line(1));
    };
    let Some(opening) = read_opening(heap, first)? else {
        return Err(TextError::Line(1));
    };
    let mut lines = Vec::new(heap);
    while let Some((first, more)) = split_once(rest, b'\n') {
        let Some(line) = read_line(heap, first)? else {
            return Err(TextError::Line(lines.len() + 2));
        };
        lines.push(line)?;
        rest = more;
    }
    if !rest.is_empty() {
        return Err(TextError::Line(lines.len() + 2));
    }
    Ok(CallText { opening, lines })
}

/// The calls of a text, or its first bad line.
pub fn read(heap: Global, text: &[u8]) -> Result<CallText, TextError>
    ensures read { Read text.now result }
    ensures settled { Settled text.now result }
{
    read_lines(heap, text)
}
