// A line, field by field.
ghost use Rattle.std.specs.Prelude.{◌≡◌};
ghost use Rattle.script.specs.Tables.{parts};
ghost use Rattle.script_reader.specs.Places.{Passed, fields_left};

use crate::field::Field;
use crate::parts::split_once;

#[derive(Drop)]
pub(crate) struct Line<'a> {
    /// What is left of it, from the next field on; none behind the last.
    rest: Option<&'a [u8]>,
    number: u16,
}

impl<'a> Line<'a> {
    pub(crate) fn new(text: &'a [u8], number: u16) -> Line<'a>
        ensures fields { fields_left result ≡ parts 9 text.now }
        ensures number { result.number ≡ number }
    {
        Line {
            rest: Some(text),
            number,
        }
    }

    pub(crate) fn number(&self) -> u16
        ensures { result ≡ self.now.number }
    {
        self.number
    }

    /// The next field, empty where there is none, as in the definition. A line that was opened has each field that is
    /// read, so an `Option` would only be unwrapped.
    pub(crate) fn field(&mut self) -> Field<'a>
        ensures { Passed self.old result self.new }
    {
        let line = self.number;
        let Some(text) = self.rest else {
            return Field { bytes: &[], line };
        };
        match split_once(text, b'\t') {
            Some((bytes, rest)) => {
                self.rest = Some(rest);
                Field { bytes, line }
            }
            None => {
                self.rest = None;
                Field { bytes: text, line }
            }
        }
    }
}
