// Changes, with the version that they are made on.
ghost use Rattle.std.specs.Prelude.{map, [], ◌∷◌};
ghost use Rattle.call_text.specs.Reading.{ReadsChange};

use crate::fields::short;
use store::Change;

/// A push or an inject.
pub(super) fn parse_adding(word: &[u8], version: &[u8], item: &[u8]) -> Option<(u16, Change<u16>)>
    ensures { ReadsChange (word.now ∷ version.now ∷ item.now ∷ []) result }
{
    let version = short(version)?;
    match word {
        b"push" => Some((version, Change::Push(short(item)?))),
        b"inject" => Some((version, Change::Inject(short(item)?))),
        _ => None,
    }
}

/// A pop or an eject.
pub(super) fn parse_taking(word: &[u8], version: &[u8]) -> Option<(u16, Change<u16>)>
    ensures { ReadsChange (word.now ∷ version.now ∷ []) result }
{
    let version = short(version)?;
    match word {
        b"pop" => Some((version, Change::Pop)),
        b"eject" => Some((version, Change::Eject)),
        _ => None,
    }
}

pub(super) fn parse_change(fields: &[&[u8]]) -> Option<(u16, Change<u16>)>
    ensures { ReadsChange (map (λ f. f.now) fields.now) result }
{
    match fields {
        [word, version] => parse_taking(word, version),
        [word, version, item] => parse_adding(word, version, item),
        _ => None,
    }
}
