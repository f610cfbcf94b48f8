// Marks and acts as a text has them.
ghost use Rattle.std.specs.Prelude.{◌≡◌, true, is_some, vec_items, IfOk, MatchResult};
ghost use Rattle.std.specs.List.{list_all, filter_map};
ghost use Rattle.script.specs.Fields.{acts};
ghost use Rattle.script_reader.specs.Pairs.{act_of_pair};
ghost use Rattle.script.specs.Soundness.{is_mark};
ghost use Rattle.std.specs.Option.{option_map};

use script::Act;
use std::alloc::{AllocError, Global};

fn is_mark(b: u8) -> bool
    ensures { result ≡ is_mark b }
{
    matches!(b, b'a'..=b'z')
}

/// Whether there are only marks in the field.
pub(crate) fn are_marks(field: &[u8]) -> bool
    ensures { result ≡ list_all is_mark field.now }
{
    field.iter().all(|b| is_mark(*b))
}

/// The act of a letter and a mark.
fn act_of_pair(pair: &[u8; 2]) -> Option<Act>
    ensures { result ≡ act_of_pair pair.now }
{
    let [letter, mark] = *pair;
    if !is_mark(mark) {
        return None;
    }
    match letter {
        b'u' => Some(Act::Push(mark)),
        b'i' => Some(Act::Inject(mark)),
        b'o' => Some(Act::Pop(mark)),
        b'e' => Some(Act::Eject(mark)),
        _ => None,
    }
}

/// Whether each pair is an act.
fn are_acts(pairs: &[[u8; 2]]) -> bool
    ensures { result ≡ list_all (λ p. is_some (act_of_pair p)) pairs.now }
{
    pairs.iter().all(|pair| act_of_pair(pair).is_some())
}

/// The acts among the pairs.
fn acts_among(heap: Global, pairs: &[[u8; 2]]) -> Result<Vec<Act>, AllocError>
    ensures { IfOk result (λ v. vec_items v ≡ filter_map act_of_pair pairs.now) }
{
    pairs.iter().filter_map(act_of_pair).collect(heap)
}

/// The acts of a field, a letter and a mark for each; none where it is not well formed.
/// Memory is asked for only once the whole field is known to be well formed.
#[tactic(auto, using(crate::proofs::Acts::even, crate::proofs::Acts::odd))]
pub(crate) fn acts_of(heap: Global, field: &[u8]) -> Result<Option<Vec<Act>>, AllocError>
    ensures { MatchResult result (λ o. option_map vec_items o ≡ acts field.now) (λ _. is_some (acts field.now) ≡ true) }
{
    let (pairs, []) = field.as_chunks::<2>() else {
        return Ok(None);
    };
    if !are_acts(pairs) {
        return Ok(None);
    }
    Ok(Some(acts_among(heap, pairs)?))
}
