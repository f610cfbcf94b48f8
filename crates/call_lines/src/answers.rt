// The lines that answer calls.
ghost use Rattle.call_lines.specs.Lines.{reply_row};
ghost use Rattle.script.specs.Tables.{join};
ghost use Rattle.std.specs.Prelude.{Some};
ghost use Rattle.store.specs.Replies.{reply_of};

use std::fmt;
use store::{Answer, CallError, Outcome};
use store_faults::Table;

/// The line of an answer. The answer's own type is another crate's, and only one of this crate's can be printed here.
#[derive(Clone, Copy)]
pub struct AnswerLine {
    pub answer: Outcome<u16>,
}

impl fmt::Display for AnswerLine {
    ghost output = { λ l. Some (join 9 (reply_row (reply_of l.answer))) };

    fn fmt<W: fmt::Write>(&self, f: &mut fmt::Formatter<W>) -> fmt::Result {
        match self.answer {
            Ok(Answer::Value(n)) => write!(f, "value\t{n}"),
            Ok(Answer::Length(n)) => write!(f, "length\t{n}"),
            Ok(Answer::Item(Some(x))) => write!(f, "item\t{x}"),
            Ok(Answer::Item(None)) => write!(f, "none"),
            Ok(Answer::Made(w, Some(x))) => write!(f, "version\t{w}\t{x}"),
            Ok(Answer::Made(w, None)) => write!(f, "version\t{w}"),
            Ok(Answer::Reserved) => write!(f, "reserved"),
            Ok(Answer::Closed) => write!(f, "closed"),
            Err(CallError::Refused(fault)) => {
                let number = fault.number();
                let table = fault.table().map_or(0, Table::number);
                write!(f, "refused\t{number}\t{table}")
            }
            Err(CallError::NoSlot) => write!(f, "no-slot"),
        }
    }
}
