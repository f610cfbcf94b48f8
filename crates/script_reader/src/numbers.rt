// Numbers as a text has them.
ghost use Rattle.std.specs.Prelude.{◌≡◌, ◌-◌, ◌≤◌, IfSome, if◌then◌else◌, Some, None};
ghost use Rattle.script.specs.Fields.{is_digit, numeral};

fn digit(b: u8) -> Option<u16>
    ensures value { result ≡ (if is_digit b then Some (b - 48) else None) }
    ensures small { IfSome result (λ d. d ≤ 9) }
{
    match b {
        b'0'..=b'9' => Some(u16::from(b - b'0')),
        _ => None,
    }
}

/// The number that the field writes: one to three digits, the first of several not 0.
pub(crate) fn numeral(field: &[u8]) -> Option<u16>
    ensures { result ≡ numeral field.now }
{
    match field {
        [a] => digit(*a),
        [b'0', ..] => None,
        [a, b] => Some(10 * digit(*a)? + digit(*b)?),
        [a, b, c] => Some(100 * digit(*a)? + 10 * digit(*b)? + digit(*c)?),
        _ => None,
    }
}
