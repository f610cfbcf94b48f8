// The lines of a text of calls.
ghost use Rattle.std.specs.Prelude.{map};
ghost use Rattle.call_lines.specs.Lines.{line_row, opening_row};
ghost use Rattle.call_lines.specs.Ranges.{LineFits, OpeningFits};
ghost use Rattle.call_text.specs.Reading.{Reads};

use super::calls::parse_call;
use crate::fields::{short, store_number};
use call_lines::{Line, Opening};

/// The first line.
pub(crate) fn parse_opening(fields: &[&[u8]]) -> Option<Opening>
    ensures { Reads opening_row OpeningFits (map (λ f. f.now) fields.now) result }
{
    match fields {
        [b"two-list", number, longest, versions, items, cells] => Some(Opening {
            number: store_number(number)?,
            longest: short(longest)?,
            versions: short(versions)?,
            items: short(items)?,
            cells: short(cells)?,
        }),
        _ => None,
    }
}

/// Any further line.
pub(crate) fn parse_line(fields: &[&[u8]]) -> Option<Line>
    ensures { Reads line_row LineFits (map (λ f. f.now) fields.now) result }
{
    match fields {
        [b"list", version] => short(version).map(Line::List),
        _ => parse_call(fields).map(Line::Call),
    }
}
