// The parts of a text between separators.
ghost use Rattle.std.specs.Prelude.{◌≡◌, ◌+◌, [], ◌∷◌, length, IfSome, MatchOption, position, slice_index_or, ◌==◌};
ghost use Rattle.script.specs.Tables.{parts};

/// Where the byte stands first.
fn place_of(text: &[u8], byte: u8) -> Option<usize>
    ensures { result ≡ position (λ b. b == byte) text.now }
{
    text.iter().position(|b| *b == byte)
}

/// What stands before the first separator, and what stands behind it.
#[tactic(auto, using(crate::proofs::Splitting::cut, crate::proofs::Splitting::whole))]
pub fn split_once(text: &[u8], separator: u8) -> Option<(&[u8], &[u8])>
    ensures parts { MatchOption result (parts separator text.now ≡ text.now ∷ []) (λ p. parts separator text.now ≡ p.0.now ∷ parts separator p.1.now) }
    ensures shorter { IfSome result (λ p. length p.0.now + 1 + length p.1.now ≡ length text.now) }
{
    let at = place_of(text, separator)?;
    Some((&text[..at], &text[at + 1..]))
}

/// The part before the first separator.
pub(crate) fn first_part(text: &[u8], separator: u8) -> &[u8]
    ensures { result.now ≡ slice_index_or (parts separator text.now) 0 [] }
{
    split_once(text, separator).map_or(text, |(part, _)| part)
}

/// How many parts there are.
pub(crate) fn count_parts(text: &[u8], separator: u8) -> usize
    ensures { result ≡ length (parts separator text.now) }
{
    1 + text.iter().filter(|b| **b == separator).count()
}
