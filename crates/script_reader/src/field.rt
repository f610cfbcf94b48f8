// What a field says.
ghost use Rattle.std.specs.Prelude.{◌≡◌, vec_items};
ghost use Rattle.script.specs.Fields.{number_in, state_in, marks_in, acts_in};
ghost use Rattle.script_reader.specs.Answers.{AnswersInFull};

use crate::letters::{acts_of, are_marks};
use crate::numbers::numeral;
use script::{Act, ReadError, Refusal};
use std::alloc::Global;

const MOST_ACTS: usize = 4;

/// A field, and the number of its line.
#[derive(Clone, Copy)]
pub(crate) struct Field<'a> {
    pub(crate) bytes: &'a [u8],
    pub(crate) line: u16,
}

impl<'a> Field<'a> {
    /// The field as a number that a byte holds.
    #[tactic(auto, unfolding(script::specs::Fields::numeral_in, script::specs::Fields::number_in))]
    fn byte(self) -> Result<u8, Refusal>
        ensures { result ≡ number_in self.entry.line 0 255 self.entry.bytes.now }
    {
        let value = numeral(self.bytes).ok_or(Refusal::Number(self.line))?;
        u8::try_from(value).map_err(|_| Refusal::Range(self.line))
    }

    /// The field as a number of the range.
    #[tactic(auto, unfolding(script::specs::Fields::number_in))]
    pub(crate) fn number(self, low: u8, high: u8) -> Result<u8, Refusal>
        ensures { result ≡ number_in self.entry.line low high self.entry.bytes.now }
    {
        let value = self.byte()?;
        if !(low..=high).contains(&value) {
            return Err(Refusal::Range(self.line));
        }
        Ok(value)
    }

    /// The field as one of the states. `number` differs by its range alone: one function for both would be as long, and
    /// its contract would speak of any range.
    #[tactic(auto, unfolding(script::specs::Fields::number_in, script::specs::Fields::state_in))]
    pub(crate) fn state(self, states: u8) -> Result<u8, Refusal>
        ensures { result ≡ state_in self.entry.line states self.entry.bytes.now }
    {
        let value = self.byte()?;
        if value >= states {
            return Err(Refusal::Range(self.line));
        }
        Ok(value)
    }

    /// The field as marks, at most so many.
    #[tactic(auto, unfolding(script::specs::Fields::marks_in))]
    pub(crate) fn marks(self, heap: Global, most: u8) -> Result<Vec<u8>, ReadError>
        ensures { AnswersInFull (marks_in self.entry.line most self.entry.bytes.now) vec_items result }
    {
        if !are_marks(self.bytes) || self.bytes.len() > usize::from(most) {
            return Err(Refusal::Letters(self.line).into());
        }
        Ok(self.bytes.to_vec(heap)?)
    }

    /// The field as acts.
    pub(crate) fn acts(self, heap: Global) -> Result<Vec<Act>, ReadError>
        ensures { AnswersInFull (acts_in self.entry.line self.entry.bytes.now) vec_items result }
    {
        let refusal = Refusal::Letters(self.line);
        if self.bytes.len() > 2 * MOST_ACTS {
            return Err(refusal.into());
        }
        Ok(acts_of(heap, self.bytes)?.ok_or(refusal)?)
    }
}
