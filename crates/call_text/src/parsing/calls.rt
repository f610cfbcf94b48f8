// Calls, by how many fields stand behind the word.
ghost use Rattle.std.specs.Prelude.{codes, map, [], ◌∷◌};
ghost use Rattle.call_lines.specs.Lines.{call_row, question_row};
ghost use Rattle.call_lines.specs.Ranges.{CallFits, QuestionFits};
ghost use Rattle.call_text.specs.Reading.{Reads};

use super::changes::{parse_adding, parse_change, parse_taking};
use crate::fields::{short, slot};
use store::{Call, Question};

/// A question about the store.
fn parse_bare(word: &[u8]) -> Option<Call<u16>>
    ensures { Reads call_row CallFits (word.now ∷ []) result }
{
    let question = match word {
        b"longest" => Question::Longest,
        b"number" => Question::Number,
        b"credit" => Question::Credit,
        b"promised" => Question::Promised,
        _ => return None,
    };
    Some(Call::Ask(question))
}

/// A question about a version.
fn parse_about(word: &[u8], version: &[u8]) -> Option<Question>
    ensures { Reads question_row QuestionFits (word.now ∷ version.now ∷ []) result }
{
    match word {
        b"length" => short(version).map(Question::Length),
        b"front" => short(version).map(Question::Front),
        b"back" => short(version).map(Question::Back),
        _ => None,
    }
}

/// A call with one field behind its word.
fn parse_one(word: &[u8], field: &[u8]) -> Option<Call<u16>>
    ensures { Reads call_row CallFits (word.now ∷ field.now ∷ []) result }
{
    match word {
        b"pop" | b"eject" => {
            let (version, change) = parse_taking(word, field)?;
            Some(Call::Make(version, change))
        }
        b"close" => slot(field).map(Call::Close),
        _ => parse_about(word, field).map(Call::Ask),
    }
}

/// A call with two fields behind its word.
fn parse_two(word: &[u8], first: &[u8], second: &[u8]) -> Option<Call<u16>>
    ensures { Reads call_row CallFits (word.now ∷ first.now ∷ second.now ∷ []) result }
{
    match word {
        b"push" | b"inject" => {
            let (version, change) = parse_adding(word, first, second)?;
            Some(Call::Make(version, change))
        }
        b"reserve" => Some(Call::Reserve(slot(first)?, short(second)?)),
        b"item" => Some(Call::Ask(Question::Item(short(first)?, short(second)?))),
        _ => None,
    }
}

/// A change under the reservation in a slot.
fn parse_under(held: &[u8], change: &[&[u8]]) -> Option<Call<u16>>
    ensures { Reads call_row CallFits (codes "under" ∷ held.now ∷ map (λ f. f.now) change.now) result }
{
    let (version, change) = parse_change(change)?;
    Some(Call::MakeUnder(slot(held)?, version, change))
}

/// Any call.
pub(super) fn parse_call(fields: &[&[u8]]) -> Option<Call<u16>>
    ensures { Reads call_row CallFits (map (λ f. f.now) fields.now) result }
{
    match fields {
        [b"under", held, change @ ..] => parse_under(held, change),
        [word] => parse_bare(word),
        [word, field] => parse_one(word, field),
        [word, first, second] => parse_two(word, first, second),
        _ => None,
    }
}
