// Why a text is refused: the numbers of refusals, and what is printed of one.
ghost use Rattle.std.specs.Prelude.{◌≡◌, Some};
ghost use Rattle.script.specs.Refusals.{line_of, number_of, refusal_row};
ghost use Rattle.script.specs.Tables.{join};

use std::fmt;

/// Why a text is refused. All but the first name the line, counted from 1.
#[derive(Clone, Copy, PartialEq, Eq, Debug)]
pub enum Refusal {
    /// The text is empty or too long.
    Size,
    /// No line with its line feed, the word that is due and that word's number of fields.
    Shape(u16),
    /// A number that is not well formed.
    Number(u16),
    /// A number out of its range.
    Range(u16),
    /// Marks or acts that are not well formed, or too many of them.
    Letters(u16),
    /// A goal that does not rise, one goal or one rule too many.
    Sequence(u16),
}

impl Refusal {
    /// The number that is printed of the refusal.
    pub fn number(self) -> u8
        ensures { result ≡ number_of self }
    {
        match self {
            Refusal::Size => 11,
            Refusal::Shape(_) => 12,
            Refusal::Number(_) => 14,
            Refusal::Range(_) => 15,
            Refusal::Letters(_) => 16,
            Refusal::Sequence(_) => 17,
        }
    }

    /// The line that the refusal names, if it names one.
    pub fn line(self) -> Option<u16>
        ensures { result ≡ line_of self }
    {
        match self {
            Refusal::Size => None,
            Refusal::Shape(line)
            | Refusal::Number(line)
            | Refusal::Range(line)
            | Refusal::Letters(line)
            | Refusal::Sequence(line) => Some(line),
        }
    }
}

impl fmt::Display for Refusal {
    ghost output = { λ q. Some (join 9 (refusal_row q)) };

    fn fmt<W: fmt::Write>(&self, f: &mut fmt::Formatter<W>) -> fmt::Result {
        let number = self.number();
        let line = self.line().unwrap_or(0);
        write!(f, "refused\t{number}\t{line}")
    }
}
