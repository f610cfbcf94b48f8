// The lines of a text of calls.
ghost use Rattle.call_lines.specs.Lines.{line_row, opening_row};
ghost use Rattle.script.specs.Tables.{join};
ghost use Rattle.std.specs.Prelude.{Some};

use crate::changes::ChangeRow;
use std::fmt;
use store::{Call, Question};

/// The first line: a two-list store's number, its longest length and the sizes of its tables.
#[derive(Clone, Copy)]
pub struct Opening {
    pub number: u32,
    pub longest: u16,
    pub versions: u16,
    pub items: u16,
    pub cells: u16,
}

/// Each further line: a call, or the question for the whole list of a version.
#[derive(Clone, Copy)]
pub enum Line {
    Call(Call<u16>),
    List(u16),
}

impl fmt::Display for Opening {
    ghost output = { λ o. Some (join 9 (opening_row o)) };

    fn fmt<W: fmt::Write>(&self, f: &mut fmt::Formatter<W>) -> fmt::Result {
        let Opening {
            number,
            longest,
            versions,
            items,
            cells,
        } = *self;
        write!(
            f,
            "two-list\t{number}\t{longest}\t{versions}\t{items}\t{cells}"
        )
    }
}

impl fmt::Display for Line {
    ghost output = { λ l. Some (join 9 (line_row l)) };

    fn fmt<W: fmt::Write>(&self, f: &mut fmt::Formatter<W>) -> fmt::Result {
        match *self {
            Line::List(v) => write!(f, "list\t{v}"),
            Line::Call(Call::Ask(question)) => match question {
                Question::Longest => write!(f, "longest"),
                Question::Number => write!(f, "number"),
                Question::Credit => write!(f, "credit"),
                Question::Promised => write!(f, "promised"),
                Question::Length(v) => write!(f, "length\t{v}"),
                Question::Item(v, place) => write!(f, "item\t{v}\t{place}"),
                Question::Front(v) => write!(f, "front\t{v}"),
                Question::Back(v) => write!(f, "back\t{v}"),
            },
            Line::Call(Call::Make(v, change)) => write!(f, "{}", ChangeRow(v, change)),
            Line::Call(Call::MakeUnder(slot, v, change)) => {
                write!(f, "under\t{slot}\t{}", ChangeRow(v, change))
            }
            Line::Call(Call::Reserve(slot, count)) => write!(f, "reserve\t{slot}\t{count}"),
            Line::Call(Call::Close(slot)) => write!(f, "close\t{slot}"),
        }
    }
}
